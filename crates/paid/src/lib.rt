// Rule (g) of a switch state, on memory that keeps the rules before it: an arrival credit, with the prices of the nodes that it was
// spent on, is K. The walk over the nodes is that of all rules (crate whole).
#![tactic(auto)]

ghost use Rattle.std.specs.Prelude.{◌≡◌};
ghost use Rattle.layout.specs.Shapes.{settings_of};
ghost use Rattle.paid.specs.Paid.{add_price, settled_at, due_found};
ghost use Rattle.paid.specs.Passes.{AddsPrice, Settles, SettlesAt};

use layout::{Shape, Table};
use ledger::EntryId;

// Adds a price to the sum of node x's port and of a queue; queue 0 has none.
#[tactic(auto, using(crate::proofs::Adding::add_none, crate::proofs::Adding::add_some))]
pub fn add_price(s: Shape, sums: &mut [u64], x: EntryId, queue: u8, price: u8)
    requires { AddsPrice s sums.old x.0 queue }
    ensures { sums.new ≡ add_price (settings_of s) sums.old x.0 queue price }
{
    if queue != 0 {
        let c = geometry::cell_of(s, usize::from(x.port()), usize::from(queue));
        sums[c] += u64::from(price);
    }
}

// Whether the credit of cell c and its sum are K together.
#[tactic(auto, unfolding(crate::specs::Paid::settled_at))]
fn settled(m: &[u8], s: Shape, sums: &[u64], c: usize) -> bool
    requires { SettlesAt s m.now sums.now c }
    ensures { result ≡ settled_at (settings_of s) m.now sums.now c }
{
    let arrival = u64::from(layout::get::<u16>(m, s, Table::Arrival, c));
    arrival + sums[c] == s.credit as u64
}

// The first cell that isn't settled.
pub fn first_due(m: &[u8], s: Shape, sums: &[u64]) -> Option<usize>
    requires { Settles s m.now sums.now }
    ensures { result ≡ due_found (settings_of s) m.now sums.now }
{
    (0..s.cells).find(|c| !settled(m, s, sums, *c))
}
