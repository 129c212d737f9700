// Packet memories (paper 02, Q-1): for each port N slots of 8,192 bytes, lent beside the state. A packet is copied into its node's slot, and
// the part of a port's memory that has it is handed back. And whether a switch keeps packets, in memories of which size.
#![tactic(auto)]

ghost use Rattle.std.specs.Prelude.{◌≡◌, List, ℕ, ◌+◌, ◌++◌, ◌≤◌, drop, eqb, length, not};
ghost use Rattle.ledger.specs.Settings.{slot_bytes};
ghost use Rattle.ledger.specs.Calls.{other_size};
ghost use Rattle.ledger.specs.Packets.{slot_at, stored};
ghost use Rattle.layout.specs.Shapes.{settings_of};
ghost use Rattle.packets.specs.Parts.{among, part_of};

use layout::Shape;
use ledger::EntryId;

// The bytes of a slot.
const SLOT: usize = 8192;

// Whether a switch with this last setting keeps packets (`keeps_packets`). Any number may be asked, not a shape's alone.
pub fn keeps(packets: usize) -> bool
    ensures { result ≡ not (eqb packets 0) }
{
    packets != 0
}

// Whether a memory of n bytes has another size than a port's packet memory.
#[tactic(auto, unfolding(ledger::specs::Settings::packet_room))]
pub fn other_size(s: Shape, n: usize) -> bool
    ensures { result ≡ other_size (settings_of s) n }
{
    n != s.nodes * SLOT
}

// Where a node's slot starts.
pub fn slot_of(id: EntryId) -> usize
    ensures { result ≡ slot_at id.0 }
{
    usize::from(id.index()) * SLOT
}

// The copier: a packet to the front of a slot, whose rest stays. A loop: std's copy would have the archive call memmove.
fn copy(slot: &mut [u8], packet: &[u8])
    requires { length packet.now ≤ length slot.old }
    ensures { slot.new ≡ packet.now ++ drop (length packet.now) slot.old }
{
    for (i, b) in packet.iter().enumerate() {
        slot[i] = *b;
    }
}

// A packet stored in its node's slot: the slot's part of the memory is lent on to the copier.
#[tactic(auto, using(crate::proofs::Laws::resting), unfolding(ledger::specs::Packets::stored))]
pub fn keep(packets: &mut [u8], id: EntryId, packet: &[u8])
    requires { (slot_at id.0 + slot_bytes ≤ length packets.old) × (length packet.now ≤ slot_bytes) }
    ensures { packets.new ≡ stored (slot_at id.0) packet.now packets.old }
{
    let at = slot_of(id);
    copy(&mut packets[at..at + SLOT], packet);
}

// n bytes of a port's memory, one of four, from byte `at` on.
pub fn part<'a>(memories: [&'a [u8]; 4], port: u32, at: usize, n: usize) -> &'a [u8]
    requires { at + n ≤ length (among port memories).now }
    ensures { ◌≡◌ {A = List ℕ × (ℕ × ℕ)} (result.now, result.ref_ptr) (part_of (among port memories.entry) at n) }
{
    &memories[port.min(3) as usize][at..][..n]
}
