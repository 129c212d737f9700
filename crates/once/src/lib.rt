// Rule (c) of a memory of any bytes: every node stands once in one list, and each list's tail is its last node. A walk marks each node that
// it meets, in marks that the caller lends, and stops at the first id that is no node or is marked already; so it ends, whatever the counts say.
// A byte has eight marks, so that those of the largest switch take little of the stack.
#![tactic(auto)]

ghost use Rattle.std.specs.Prelude.{◌≡◌, ◌*◌, ◌<◌, length};
ghost use Rattle.layout.specs.Tables.{lists};
ghost use Rattle.layout.specs.Shapes.{settings_of};
ghost use Rattle.once.specs.Bits.{mark_at, set_mark, marks_in};
ghost use Rattle.once.specs.Once.{unmarked, once_found};
ghost use Rattle.once.specs.Walks.{Marks, Walkable, Blank, Fresh, Met, Walked};

use layout::{Shape, Table};
use ledger::EntryId;

// The mark of an element, 0 or 1.
#[tactic(auto, using(std::proofs::lemmas::Nat::Bits::shr_and_one), unfolding(crate::specs::Bits::mark_at))]
fn mark_at(marks: &[u8], at: usize) -> u8
    requires { at < 8 * length marks.now }
    ensures { result ≡ mark_at marks.now at }
{
    (marks[at / 8] >> (at % 8)) & 1
}

// Sets it.
fn set_mark(marks: &mut [u8], at: usize)
    requires { at < 8 * length marks.old }
    ensures { marks.new ≡ set_mark marks.old at }
{
    marks[at / 8] |= 1 << (at % 8);
}

// Sets the mark of an element, where it is not set yet, and answers whether it was not. Where it is set, nothing is written, so that the
// compiler may put off what is read beside it.
pub fn fresh(at: usize, marks: &mut [u8]) -> bool
    requires { at < 8 * length marks.old }
    ensures { Fresh marks.old at marks.new result }
{
    let new = mark_at(marks, at) == 0;
    if new {
        set_mark(marks, at);
    }
    new
}

// Marks x, where it is a node that is not marked yet, and answers whether it is.
#[tactic(auto, using(memory::proofs::Chains::slot_lt), unfolding(crate::specs::Once::is_new))]
fn meet(s: Shape, x: EntryId, marks: &mut [u8]) -> bool
    requires { Marks s marks.old }
    ensures { Met s (marks_in (settings_of s) marks.old) x.0 (marks_in (settings_of s) marks.new) result }
{
    geometry::is_node(s.ports, s.nodes, x) && fresh(geometry::slot_of(s, x), marks)
}

// Walks list l from its head to its count, and answers whether each node was new and the last is the tail.
fn walk_list(m: &[u8], s: Shape, l: usize, marks: &mut [u8]) -> bool
    requires { Walkable s m.now marks.old l }
    ensures { Walked s m.now (marks_in (settings_of s) marks.old) l (marks_in (settings_of s) marks.new) result }
{
    let tail = layout::get::<u16>(m, s, Table::Tail, l);
    let count = layout::get::<u32>(m, s, Table::Count, l);
    let mut x = layout::get::<u16>(m, s, Table::Head, l);
    let mut last = tail;
    for _ in 0..count {
        let id = EntryId(x);
        if !meet(s, id, marks) {
            return false;
        }
        last = x;
        x = layout::get(m, s, Table::Next, geometry::slot_of(s, id));
    }
    last == tail
}

// The first node whose mark is not set, numbered after the lists.
fn first_unmarked(s: Shape, marks: &[u8]) -> Option<usize>
    requires { Marks s marks.now }
    ensures { result ≡ unmarked (lists (settings_of s)) (marks_in (settings_of s) marks.now) }
{
    let i = (0..s.all).find(|i| mark_at(marks, *i) == 0)?;
    Some(s.lists + i)
}

// The first list that has a node twice, an id that is no node, or another last node than its tail; else, numbered after the lists, the first
// node that stands in none.
pub fn once(m: &[u8], s: Shape, marks: &mut [u8]) -> Option<usize>
    requires { Blank s m.now marks.old }
    ensures { result ≡ once_found (settings_of s) m.now }
{
    for l in 0..s.lists {
        if !walk_list(m, s, l, marks) {
            return Some(l);
        }
    }
    first_unmarked(s, marks)
}
