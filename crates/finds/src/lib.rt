// Where a node stands, on a memory that is a switch state: the lists are walked by their links until it is met.
#![tactic(auto)]

ghost use Rattle.std.specs.Prelude.{◌≡◌};
ghost use Rattle.ledger.specs.Answers.{where_reply};
ghost use Rattle.ledger.specs.Calls.{where_is};
ghost use Rattle.layout.specs.declared.Table.TheVariants.{Next};
ghost use Rattle.layout.specs.Tables.{lists, get};
ghost use Rattle.layout.specs.Shapes.{settings_of};
ghost use Rattle.layout.specs.Picture.{slot, nodes_of};
ghost use Rattle.memory.specs.Judged.{Works};
ghost use Rattle.memory.specs.Memory.{acted};
ghost use Rattle.records.specs.Records.{InRecords};
ghost use Rattle.finds.specs.Search.{Walks, walked, searched};

use layout::{Shape, Table};
use ledger::{EntryId, ListKind, Refusal};

// The node after x.
#[tactic(auto, using(crate::proofs::Laws::walking))]
fn next(m: &[u8], s: Shape, x: EntryId) -> EntryId
    requires { InRecords s x.0 m.now }
    ensures { result.0 ≡ get (settings_of s) m.now Next (slot (settings_of s) x.0) }
{
    EntryId(layout::get(m, s, Table::Next, geometry::slot_of(s, x)))
}

// At which position node x stands in list l, if it does.
#[tactic(auto, using(crate::proofs::Laws::walking))]
fn in_list(m: &[u8], s: Shape, l: usize, x: EntryId) -> Option<u16>
    requires { Walks s l m.now }
    ensures { result ≡ walked x.0 0 (nodes_of (settings_of s) m.now l) }
{
    let mut y = lists::first(m, s, l);
    for i in 0..lists::count(m, s, l) {
        if y == x {
            return Some(i as u16);
        }
        y = next(m, s, y);
    }
    None
}

// The number of the list in which node x stands, and the position in it.
#[tactic(auto, using(crate::proofs::Laws::searching))]
fn search(m: &[u8], s: Shape, x: EntryId) -> Option<(usize, u16)>
    requires { Works s m.now }
    ensures { result ≡ searched (settings_of s) m.now x.0 0 (lists (settings_of s)) }
{
    for l in 0..s.lists {
        if let Some(i) = in_list(m, s, l, x) {
            return Some((l, i));
        }
    }
    None
}

// The list in which a node stands and its position in it from 0; refused for an id that is no node's.
#[tactic(auto, using(crate::proofs::Laws::standing))]
pub fn where_is(m: &[u8], s: Shape, id: EntryId) -> Result<(ListKind, u16), Refusal>
    requires { Works s m.now }
    ensures { where_reply result ≡ (acted (settings_of s) m.now (where_is id.0)).0 }
{
    if !geometry::is_node(s.ports, s.nodes, id) {
        return Err(Refusal::NoSuchId);
    }
    // in a switch state each node stands somewhere
    let (l, i) = search(m, s, id).unwrap();
    Ok((geometry::kind_of(s, l), i))
}
