// Rules (c) to (g) of a switch state together, and of (b) what is said of prefetch lists: one walk of the lists, in marks and sums that the
// caller lends, tells whether all are kept. Which rule is broken first, and where, say the crates of the rules; the walk tells them where to
// begin. docs/LAYOUT.md has a table of what is tested where.
#![tactic(auto)]

ghost use Rattle.std.specs.Prelude.{◌+◌, ◌*◌, ◌≤◌, length};
ghost use Rattle.layout.specs.Shapes.{settings_of};
ghost use Rattle.once.specs.Bits.{marks_in};
ghost use Rattle.whole.specs.Whole.{Tells};
ghost use Rattle.whole.specs.Walks.{ListLent, NextFilled, PortLent, AllLent, ListPassed, PortPassed};

use layout::{Shape, Table};
use ledger::EntryId;
use numbers::Number;

// What the walk tells where a rule is broken: one before (g), and what (d) to (f) find from this port's lists on is what they find; or (g)
// alone, first at this cell.
#[derive(Clone, Copy)]
pub enum Fault {
    Stuck(usize),
    Due(usize),
}

// Walks list l, a port's column, from its head to its count, and answers whether each node passed and the last is the tail. The node after x
// is read before anything of x is written: a processor then fetches it while it tests x.
// kept: marks and sums stay two slices: a struct of two &mut would be taken apart at each node, which lends one of them on.
#[inline(always)]
fn list_passes(
    m: &[u8],
    s: Shape,
    l: usize,
    count: u32,
    port: usize,
    column: usize,
    marks: &mut [u8],
    sums: &mut [u64],
) -> bool
    requires { ListLent s m.now marks.old sums.old l count port column }
    ensures { ListPassed (settings_of s) m.now l (marks_in (settings_of s) marks.old) sums.old
        (marks_in (settings_of s) marks.new) sums.new result }
{
    let tail = layout::get::<u16>(m, s, Table::Tail, l);
    let mut x = layout::get::<u16>(m, s, Table::Head, l);
    let mut last = tail;
    for _ in 0..count {
        let id = EntryId(x);
        if !geometry::is_node(s.ports, s.nodes, id) {
            return false;
        }
        let at = geometry::slot_of(s, id);
        let next = layout::get::<u16>(m, s, Table::Next, at);
        if !nodes::node_passes(m, s, port, column, id, at, marks, sums) {
            return false;
        }
        last = x;
        x = next;
    }
    last == tail
}

// The same by the list's kind, so that it is compiled once for free and ingress lists and once for those of a queue, and no node asks in which
// it stands. The column is written otherwise in one of the calls: of two that are equal the compiler would make one.
fn kind_passes(
    m: &[u8],
    s: Shape,
    l: usize,
    count: u32,
    port: usize,
    column: usize,
    marks: &mut [u8],
    sums: &mut [u64],
) -> bool
    requires { ListLent s m.now marks.old sums.old l count port column }
    ensures { ListPassed (settings_of s) m.now l (marks_in (settings_of s) marks.old) sums.old
        (marks_in (settings_of s) marks.new) sums.new result }
{
    if column < 2 {
        list_passes(m, s, l, count, port, column.min(1), marks, sums)
    } else {
        list_passes(m, s, l, count, port, column, marks, sums)
    }
}

// The first list from this column on that has a node, of a row of lists whose counts stand from a place on. By itself in the compiled code
// too: taken into the walk, the search of the empty lists, which are most, had the registers that the nodes of the others need.
#[inline(never)]
fn next_filled(m: &[u8], counts: usize, row: usize, from: usize) -> Option<usize>
    requires { counts + row * 4 ≤ length m.now }
    ensures { NextFilled m.now counts row from result }
{
    (from..row).find(|column| u32::read(m, counts + *column * 4) != 0)
}

// Walks the lists of a port that have nodes, since an empty one passes, and answers how many nodes were met so far, where each list passed.
fn port_passes(
    m: &[u8],
    s: Shape,
    port: usize,
    marks: &mut [u8],
    sums: &mut [u64],
    mut met: u32,
) -> Option<u32>
    requires { PortLent s m.now marks.old sums.old port met }
    ensures { PortPassed (settings_of s) m.now port (marks_in (settings_of s) marks.new) sums.new result }
{
    let counts = layout::start_of(s, Table::Count) + port * s.row * 4;
    let mut from: usize = 0;
    while let Some(column) = next_filled(m, counts, s.row, from) {
        let l = port * s.row + column;
        let count = layout::get::<u32>(m, s, Table::Count, l);
        if !ranges::few_enough(s, column, count) {
            return None;
        }
        if !kind_passes(m, s, l, count, port, column, marks, sums) {
            return None;
        }
        met += count;
        from = column + 1;
    }
    Some(met)
}

// All lists, and then the credits. Where each node that was met was new, as many were met as there are exactly if none was left out.
pub fn whole(m: &[u8], s: Shape, marks: &mut [u8], sums: &mut [u64]) -> Result<(), Fault>
    requires { AllLent s m.now marks.old sums.old }
    ensures { Tells (settings_of s) m.now result }
{
    let mut met: u32 = 0;
    for port in 0..s.ports {
        met = port_passes(m, s, port, marks, sums, met).ok_or(Fault::Stuck(port))?;
    }
    if met as usize != s.all {
        return Err(Fault::Stuck(s.ports));
    }
    match paid::first_due(m, s, sums) {
        Some(c) => Err(Fault::Due(c)),
        None => Ok(()),
    }
}
