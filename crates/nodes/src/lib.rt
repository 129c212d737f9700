// What the one walk asks of each node that it meets: that it is new, rule (d), (e) or (f) by its list's column, and its price for rule (g).
#![tactic(auto)]

ghost use Rattle.std.specs.Prelude.{◌≡◌, ◌||◌, eqb, ltb, leb};
ghost use Rattle.ledger.specs.Ledger.{owner};
ghost use Rattle.layout.specs.Shapes.{settings_of};
ghost use Rattle.once.specs.Bits.{marks_in};
ghost use Rattle.fits.specs.Fits.{queue_at};
ghost use Rattle.nodes.specs.Passes.{PacketLent, PacketPassed, NodeLent, NodePassed};

use fits::Note;
use layout::{Shape, Table};
use ledger::EntryId;

// (d), which spares the lists of queues: the node is the port's.
fn port_fits(port: usize, column: usize, x: EntryId) -> bool
    ensures { result ≡ (leb 2 column || eqb (owner x.0) port) }
{
    2 <= column || usize::from(x.port()) == port
}

// (e), which spares the free and the ingress list: the node has the list's queue.
fn queue_fits(s: Shape, column: usize, queue: u8) -> bool
    ensures { result ≡ (ltb column 2 || eqb queue (queue_at (settings_of s) column)) }
{
    column < 2 || fits::own_queue(s.queues, column, usize::from(queue))
}

// (e) and (f) of a node that is not free; its price is added. Its queue is asked before the rest of its record is read: read at once, the
// fields took the registers that marks and nodes need.
fn packet_passes(m: &[u8], s: Shape, column: usize, x: EntryId, at: usize, sums: &mut [u64]) -> bool
    requires { PacketLent s m.now sums.old x.0 at }
    ensures { PacketPassed (settings_of s) m.now column x.0 sums.old sums.new result }
{
    let queue = layout::get::<u8>(m, s, Table::Queue, at);
    if !queue_fits(s, column, queue) {
        return false;
    }
    let n = Note::read(m, s, at);
    if !n.proper(s) {
        return false;
    }
    paid::add_price(s, sums, x, n.queue, n.price);
    true
}

// Marks node x at its element, tests it where it stands and adds its price, and answers whether it was new and fits.
pub fn node_passes(
    m: &[u8],
    s: Shape,
    port: usize,
    column: usize,
    x: EntryId,
    at: usize,
    marks: &mut [u8],
    sums: &mut [u64],
) -> bool
    requires { NodeLent s m.now marks.old sums.old x.0 at }
    ensures { NodePassed (settings_of s) m.now port column x.0 (marks_in (settings_of s) marks.old)
        sums.old (marks_in (settings_of s) marks.new) sums.new result }
{
    if !once::fresh(at, marks) || !port_fits(port, column, x) {
        return false;
    }
    column == 0 || packet_passes(m, s, column, x, at, sums)
}
