// The night crew's audit, on a memory that is a switch state: one walk of the lists, in which each node that is met writes its place at its
// own eight bytes of a lent room.
#![tactic(auto)]

ghost use Rattle.std.specs.Prelude.{◌≡◌, List, ℕ, ◌+◌, ◌≤◌, length};
ghost use Rattle.ledger.specs.Answers.{kind_of, plain_reply};
ghost use Rattle.ledger.specs.Calls.{Reply};
ghost use Rattle.layout.specs.Tables.{lists};
ghost use Rattle.layout.specs.Shapes.{settings_of};
ghost use Rattle.memory.specs.Judged.{Works};
ghost use Rattle.memory.specs.Audit.{audited};
ghost use Rattle.audits.specs.Told.{put_eight, told_list, told_lists, Lent, ListLent, NodeLent, Told};

use layout::{Shape, Table};
use ledger::{EntryId, ListKind, Refusal};

// Eight bytes of the room become these.
#[tactic(auto, unfolding(crate::specs::Told::put_eight))]
fn put(room: &mut [u8], at: usize, bytes: [u8; 8])
    requires { at + 8 ≤ length room.old }
    ensures { room.new ≡ put_eight at bytes room.old }
{
    room[at..at + 8].copy_from_slice(&bytes);
}

// Tells that node x stands at position i of a list of this kind, and answers the node after it.
#[tactic(auto, using(memory::proofs::Chains::slot_lt))]
fn tell(m: &[u8], s: Shape, x: EntryId, kind: ListKind, i: u16, room: &mut [u8]) -> EntryId
    requires { NodeLent s x.0 m.now room.old }
    ensures { Told s m.now (kind_of kind) i x.0 result.0 room.old room.new }
{
    let at = geometry::slot_of(s, x);
    put(room, 8 * at, rooms::place_bytes(x, kind, i));
    EntryId(layout::get(m, s, Table::Next, at))
}

// Tells the nodes of list l.
#[tactic(auto, using(crate::proofs::Walks::telling))]
fn tell_list(m: &[u8], s: Shape, l: usize, room: &mut [u8])
    requires { ListLent s l m.now room.old }
    ensures { room.new ≡ told_list (settings_of s) m.now l room.old }
{
    let kind = geometry::kind_of(s, l);
    let mut x = lists::first(m, s, l);
    for i in 0..lists::count(m, s, l) {
        x = tell(m, s, x, kind, i as u16, room);
    }
}

// Tells the nodes of all lists.
#[tactic(auto, using(crate::proofs::Walks::passing))]
fn tell_lists(m: &[u8], s: Shape, room: &mut [u8])
    requires { Lent s m.now room.old }
    ensures { room.new ≡ told_lists (settings_of s) m.now 0 (lists (settings_of s)) room.old }
{
    for l in 0..s.lists {
        tell_list(m, s, l, room);
    }
}

// Every node's place, port by port and index by index: refused where the room has less than eight bytes a node.
#[tactic(auto, using(memory::proofs::Audit::audit_short, memory::proofs::Audit::audit_done, crate::proofs::Blocks::walk_tells, layout::proofs::Shapes::small))]
pub fn audit(m: &[u8], s: Shape, room: &mut [u8]) -> Result<(), Refusal>
    requires { Works s m.now }
    ensures { ◌≡◌ {A = Reply × List ℕ} (plain_reply result, room.new) (audited (settings_of s) m.now room.old) }
{
    if room.len() < 8 * s.all {
        return Err(Refusal::ShortRoom);
    }
    tell_lists(m, s, room);
    Ok(())
}
