// The ends of the linked lists, in constant time: a first node taken off, a last one put on.
#![tactic(auto)]

ghost use Rattle.std.specs.Prelude.{◌≡◌};
ghost use Rattle.layout.specs.declared.Table.TheVariants.{Head, Count};
ghost use Rattle.layout.specs.Tables.{get};
ghost use Rattle.layout.specs.Shapes.{settings_of};
ghost use Rattle.memory.specs.Ends.{link, push_mem};
ghost use Rattle.lists.specs.Ends.{InList, CanTake, CanPut, CanLink, Taken};

use layout::{Shape, Table};
use ledger::EntryId;

// How many nodes a list has.
pub fn count(m: &[u8], s: Shape, l: usize) -> u32
    requires { InList s l m.now }
    ensures { result ≡ get (settings_of s) m.now Count l }
{
    layout::get(m, s, Table::Count, l)
}

// A list's first node, where it has one.
pub fn first(m: &[u8], s: Shape, l: usize) -> EntryId
    requires { InList s l m.now }
    ensures { result.0 ≡ get (settings_of s) m.now Head l }
{
    EntryId(layout::get(m, s, Table::Head, l))
}

// The first node of list a, which is taken off.
#[tactic(auto, using(memory::proofs::Chains::slot_lt, memory::proofs::Chains::head_is_node), unfolding(memory::specs::Ends::pop_mem))]
pub fn pop(m: &mut [u8], s: Shape, a: usize) -> EntryId
    requires { CanTake s a m.old }
    ensures { Taken s a result.0 m.old m.new }
{
    let n = count(m, s, a);
    let x = first(m, s, a);
    let at = geometry::slot_of(s, x);
    let second = layout::get::<u16>(m, s, Table::Next, at);
    layout::put(m, s, Table::Head, a, second);
    layout::put(m, s, Table::Count, a, n - 1);
    x
}

// The link to x, the new last node of list b, which has n nodes.
#[tactic(auto, using(memory::proofs::Chains::slot_lt, memory::proofs::Chains::tail_is_node), unfolding(memory::specs::Ends::link))]
fn link(m: &mut [u8], s: Shape, b: usize, x: EntryId, n: u32)
    requires { CanLink s b x.0 n m.old }
    ensures { m.new ≡ link (settings_of s) b x.0 m.old }
{
    if n == 0 {
        layout::put(m, s, Table::Head, b, x.0);
    } else {
        let at = geometry::slot_of(s, EntryId(layout::get(m, s, Table::Tail, b)));
        layout::put(m, s, Table::Next, at, x.0);
    }
}

// Node x put on at the end of list b.
#[tactic(auto, using(memory::proofs::Chains::total_bound), unfolding(memory::specs::Ends::push_mem))]
pub fn push(m: &mut [u8], s: Shape, b: usize, x: EntryId)
    requires { CanPut s b x.0 m.old }
    ensures { m.new ≡ push_mem (settings_of s) b x.0 m.old }
{
    let n = count(m, s, b);
    link(m, s, b, x, n);
    layout::put(m, s, Table::Tail, b, x.0);
    layout::put(m, s, Table::Count, b, n + 1);
}
