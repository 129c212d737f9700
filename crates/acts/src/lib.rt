// The acts without the test, for benchmarks alone: on a memory that is known to be a switch state, each does what the public call does. And
// the storing of a packet by itself.
// A caller from C has to know it: these are no part of the public surface.
#![tactic(auto, using(memory::proofs::Demands::on_works))]

ghost use Rattle.std.specs.Prelude.{◌≡◌, List, ℕ, ◌+◌, ◌≤◌, length};
ghost use Rattle.ledger.specs.Settings.{slot_bytes};
ghost use Rattle.ledger.specs.Buckets.{untimed};
ghost use Rattle.ledger.specs.Header.{alone};
ghost use Rattle.ledger.specs.Calls.{arrive, stitch, prefetch, credit, turn};
ghost use Rattle.ledger.specs.Desk.{act};
ghost use Rattle.ledger.specs.Packets.{slot_at, stored};
ghost use Rattle.layout.specs.Picture.{State};
ghost use Rattle.memory.specs.Judged.{Works};
ghost use Rattle.memory.specs.Memory.{M};
ghost use Rattle.rooms.specs.Rooms.{told, told_in, entry_room, record_room, sent_room};

use layout::Shape;
use ledger::{EntryId, Load};

// The shape of a memory that is a switch state, which is always opened.
fn shape(m: &[u8]) -> Shape
    requires { State m.now }
    ensures { Works result m.now }
{
    ranges::open(m).unwrap()
}

#[unsafe(no_mangle)]
pub extern "C" fn act_arrive(mem: &mut [u8], port: u32, header: &[u8], entry: &mut u16) -> u32
    requires { State mem.old }
    ensures { ◌≡◌ {A = ℕ × List ℕ × ℕ} (result, mem.new, entry.new)
        (told_in entry_room entry.old (M (act (arrive port (alone header.now))) mem.old)) }
{
    let s = shape(mem);
    rooms::put_entry(arrivals::arrive(mem, s, Load::Header, port, header), entry)
}

#[unsafe(no_mangle)]
pub extern "C" fn act_stitch(mem: &mut [u8], port: u32, room: &mut [u8; 10]) -> u32
    requires { State mem.old }
    ensures { ◌≡◌ {A = ℕ × List ℕ × List ℕ} (result, mem.new, room.new)
        (told_in record_room room.old (M (act (stitch port)) mem.old)) }
{
    let s = shape(mem);
    rooms::put_record(moves::stitch(mem, s, port), room)
}

#[unsafe(no_mangle)]
pub extern "C" fn act_prefetch(mem: &mut [u8], port: u32, queue: u32, entry: &mut u16) -> u32
    requires { State mem.old }
    ensures { ◌≡◌ {A = ℕ × List ℕ × ℕ} (result, mem.new, entry.new)
        (told_in entry_room entry.old (M (act (prefetch port queue)) mem.old)) }
{
    let s = shape(mem);
    rooms::put_entry(moves::prefetch(mem, s, port, queue), entry)
}

#[unsafe(no_mangle)]
pub extern "C" fn act_credit(mem: &mut [u8], port: u32, queue: u32, amount: u32) -> u32
    requires { State mem.old }
    ensures { ◌≡◌ {A = ℕ × List ℕ} (result, mem.new) (told (M (act (credit port queue amount)) mem.old)) }
{
    let s = shape(mem);
    rooms::plain(credits::credit(mem, s, port, queue, amount))
}

#[unsafe(no_mangle)]
pub extern "C" fn act_turn(mem: &mut [u8], port: u32, sent: &mut [u8; 16]) -> u32
    requires { State mem.old }
    ensures { ◌≡◌ {A = ℕ × List ℕ × List ℕ} (result, mem.new, sent.new)
        (told_in sent_room sent.old (M (act (turn untimed port)) mem.old)) }
{
    let s = shape(mem);
    rooms::put_sent(turns::turn(mem, s, port), sent)
}

// What an arrival of a whole packet does beside: the packet stored in its node's slot.
#[unsafe(no_mangle)]
pub extern "C" fn act_keep(packets: &mut [u8], entry: u16, packet: &[u8])
    requires { (slot_at entry + slot_bytes ≤ length packets.old) × (length packet.now ≤ slot_bytes) }
    ensures { packets.new ≡ stored (slot_at entry) packet.now packets.old }
{
    packets::keep(packets, EntryId(entry), packet)
}
