// The switch's geometry: which element of its tables a node, a list, a credit or a bucket has. It is said here and nowhere else.
#![tactic(auto)]

ghost use Rattle.std.specs.Prelude.{◌≡◌, ◌+◌, ◌-◌, ◌*◌};
ghost use Rattle.ledger.specs.Settings.{Settings, row};
ghost use Rattle.ledger.specs.Ledger.{is_node, free, ingress, egress, prefetched, place#, place_of, cell};
ghost use Rattle.ledger.specs.Buckets.{bucket#};
ghost use Rattle.ledger.specs.Answers.{kind_of};
ghost use Rattle.layout.specs.Shapes.{settings_of};
ghost use Rattle.layout.specs.Picture.{slot};
ghost use Rattle.geometry.specs.Places.{OfPort, InRow, OfQueue, HasCell, HasBucket, InLists};

use layout::Shape;
use ledger::{EntryId, ListKind};

// ---- nodes

// Whether an id is a node's, where there are so many ports and so many nodes a port. Any two numbers may be asked, not a shape's alone.
#[tactic(auto, unfolding(ledger::specs::Ledger::is_node))]
pub fn is_node(ports: usize, nodes: usize, x: EntryId) -> bool
    ensures { (S : Settings) → S.ports ≡ ports → S.nodes ≡ nodes → result ≡ is_node S x.0 }
{
    usize::from(x.port()) < ports && usize::from(x.index()) < nodes
}

// The element of a node in the tables of nodes.
#[tactic(auto, unfolding(layout::specs::Picture::slot))]
pub fn slot_of(s: Shape, x: EntryId) -> usize
    ensures { result ≡ slot (settings_of s) x.0 }
{
    usize::from(x.port()) * s.nodes + usize::from(x.index())
}

// ---- credits

// The element of a port and a queue in the tables of credits, in which queue 0 has none.
#[tactic(auto, unfolding(ledger::specs::Ledger::cell))]
pub fn cell_of(s: Shape, p: usize, q: usize) -> usize
    requires { HasCell s p q }
    ensures { result ≡ cell (settings_of s) p (q - 1) }
{
    p * (s.queues - 1) + (q - 1)
}

// ---- buckets

// The element of a port's bucket in the table of buckets.
#[tactic(auto, using(crate::proofs::Places::bucket_place))]
pub fn bucket_of(s: Shape, p: usize, b: usize) -> usize
    requires { HasBucket s p b }
    ensures { result ≡ bucket# p b }
{
    p * 33 + b
}

// ---- lists: port by port, free, ingress, the egress lists, the prefetch lists
// kept: a function for each kind over one (`number`), since its clause names the kind of list.

// The number of port p's list in column c.
fn number(s: Shape, p: usize, c: usize) -> usize
    requires { InRow s p c }
    ensures { result ≡ p * row (settings_of s) + c }
{
    p * s.row + c
}

#[tactic(auto, using(crate::proofs::Places::free_place), unfolding(ledger::specs::Settings::row))]
pub fn free_list(s: Shape, p: usize) -> usize
    requires { OfPort s p }
    ensures { result ≡ place# (settings_of s) (free p) }
{
    number(s, p, 0)
}

#[tactic(auto, using(crate::proofs::Places::ingress_place), unfolding(ledger::specs::Settings::row))]
pub fn ingress_list(s: Shape, p: usize) -> usize
    requires { OfPort s p }
    ensures { result ≡ place# (settings_of s) (ingress p) }
{
    number(s, p, 1)
}

#[tactic(auto, using(crate::proofs::Places::egress_place), unfolding(ledger::specs::Settings::row))]
pub fn egress_list(s: Shape, p: usize, q: usize) -> usize
    requires { OfQueue s p q }
    ensures { result ≡ place# (settings_of s) (egress p q) }
{
    number(s, p, 2 + q)
}

#[tactic(auto, using(crate::proofs::Places::prefetch_place), unfolding(ledger::specs::Settings::row))]
pub fn prefetch_list(s: Shape, p: usize, q: usize) -> usize
    requires { OfQueue s p q }
    ensures { result ≡ place# (settings_of s) (prefetched p q) }
{
    number(s, p, 2 + (s.queues + q))
}

// Which list a list's number is.
#[tactic(auto, using(crate::proofs::Places::kinds))]
pub fn kind_of(s: Shape, l: usize) -> ListKind
    requires { InLists s l }
    ensures { kind_of result ≡ place_of (settings_of s) l }
{
    let port = (l / s.row) as u8;
    let column = l % s.row;
    if column == 0 {
        return ListKind::Free { port };
    }
    if column == 1 {
        return ListKind::Ingress { port };
    }
    let k = column - 2;
    if k < s.queues {
        return ListKind::Egress {
            port,
            queue: k as u8,
        };
    }
    ListKind::Prefetch {
        port,
        queue: (k - s.queues) as u8,
    }
}
