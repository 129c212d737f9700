// The thirteen calls of the queue manager, turn timed or not and arrive of a header or of a whole packet, the round, the run, and the night
// crew's audit, finding and repair, for any memory and any numbers: nothing has to be checked by the caller. Each contract is an equation that
// fixes answer and memory: (reply, memory after) is M of the call and the memory before; of the round, round_on of the memory and the room; of
// the run run_on, of the audit audit_on, of the finding broken_in, of the repair repaired; of a whole packet packet_on of both memories, and show
// hands back shown_of the four.
#![tactic(auto, using(crate::proofs::Laws::calling))]

ghost use Rattle.std.specs.Prelude.{◌≡◌, List, ℕ, ◌<◌};
ghost use Rattle.ledger.specs.Header.{alone};
ghost use Rattle.ledger.specs.Answers.{number_in, load_of, show_reply};
ghost use Rattle.ledger.specs.Answers.{plain_reply, stitch_reply, entry_reply, turn_reply, ready_reply, where_reply, report_reply, bucket_reply};
ghost use Rattle.ledger.specs.Buckets.{untimed, at};
ghost use Rattle.ledger.specs.Calls.{Reply, arrive, stitch, prefetch, credit, map_to, turn, ready, where_is, clear, report, bucket, show};
ghost use Rattle.ledger.specs.Desk.{act};
ghost use Rattle.memory.specs.Memory.{M};
ghost use Rattle.memory.specs.Packets.{packet_on};
ghost use Rattle.memory.specs.Rounds.{round_on};
ghost use Rattle.memory.specs.Runs.{Report, run_on};
ghost use Rattle.memory.specs.Audit.{audit_on};
ghost use Rattle.memory.specs.Repair.{repaired};
ghost use Rattle.packets.specs.Parts.{sizes_of, shown_of};
ghost use Rattle.runs.specs.Runs.{report_in};
ghost use Rattle.sound.specs.Sound.{broken_in};
ghost use Rattle.setup.specs.Told.{call_of};

use ledger::{Broken, EntryId, Exit, ListKind, Load, Readiness, Refusal, Sent};
use runs::Ran;
use settings::Settings;

// Setup: writes the starting ledger, also over an older one.
pub fn set_up(m: &mut [u8], told: Settings) -> Result<(), Refusal>
    ensures { ◌≡◌ {A = Reply × List ℕ} (plain_reply result, m.new) (M (call_of told) m.old) }
{
    setup::setup(m, told)
}

// What arrives, of either kind, on any memory.
fn admit(m: &mut [u8], load: Load, port: u32, bytes: &[u8]) -> Result<EntryId, Refusal>
    ensures { ◌≡◌ {A = Reply × List ℕ} (entry_reply result, m.new) (M (act (arrive port (load_of load bytes.now))) m.old) }
{
    let s = sound::test(m)?;
    arrivals::arrive(m, s, load, port, bytes)
}

// Arrive: takes a node of the port for the header; answers its entry id.
pub fn arrive(m: &mut [u8], port: u32, header: &[u8]) -> Result<EntryId, Refusal>
    ensures { ◌≡◌ {A = Reply × List ℕ} (entry_reply result, m.new) (M (act (arrive port (alone header.now))) m.old) }
{
    admit(m, Load::Header, port, header)
}

// Arrive with the whole packet, whose first bytes are the header: it is stored in its node's slot of the port's packet memory.
#[tactic(auto, unfolding(memory::specs::Packets::packet_on))]
pub fn arrive_packet(
    m: &mut [u8],
    kept: &mut [u8],
    port: u32,
    packet: &[u8],
) -> Result<EntryId, Refusal>
    ensures { ◌≡◌ {A = Reply × List ℕ × List ℕ} (entry_reply result, m.new, kept.new)
        (packet_on m.old kept.old port packet.now) }
{
    let id = admit(m, Load::Packet(kept.len()), port, packet)?;
    packets::keep(kept, id, packet);
    Ok(id)
}

// Show, by the sizes of the four packet memories: the oldest packet of the slots of port and queue, by its node and its length.
pub fn show_at(
    m: &[u8],
    sizes: [usize; 4],
    port: u32,
    queue: u32,
) -> Result<(EntryId, u16), Refusal>
    ensures { show_reply result ≡ (M (act (show sizes port queue)) m.now).0 }
{
    let s = sound::test(m)?;
    shows::show_at(m, s, sizes, port, queue)
}

// Show: the oldest packet of the slots of port and queue, as a part of its owner's packet memory, never a copy; of a refusal an empty part, and
// its number goes into the number lent for it, else 0.
// kept: no Result, since paper 02 asks for an empty part and for a number lent for just that.
pub fn show<'a>(m: &[u8], memories: [&'a [u8]; 4], port: u32, queue: u32, no: &mut u32) -> &'a [u8]
    ensures refusal { no.new ≡ number_in (M (act (show (sizes_of memories.entry) port queue)) m.now).0 }
    ensures shown { ◌≡◌ {A = List ℕ × (ℕ × ℕ)} (result.now, result.ref_ptr)
        (shown_of (M (act (show (sizes_of memories.entry) port queue)) m.now).0 memories.entry) }
{
    match sound::test(m) {
        Ok(s) => shows::show(m, s, memories, port, queue, no),
        Err(none) => {
            *no = u32::from(none);
            &memories[0][..0]
        }
    }
}

// Stitch: the port's oldest ingress node to the egress list of the mapped port; answers the ten-byte record.
pub fn stitch(m: &mut [u8], port: u32) -> Result<[u8; 10], Refusal>
    ensures { ◌≡◌ {A = Reply × List ℕ} (stitch_reply result, m.new) (M (act (stitch port)) m.old) }
{
    let s = sound::test(m)?; // a refusal tells no record
    moves::stitch(m, s, port)
}

// Prefetch: the oldest egress node of a queue to the end of its prefetch list; answers its entry id.
pub fn prefetch(m: &mut [u8], port: u32, queue: u32) -> Result<EntryId, Refusal>
    ensures { ◌≡◌ {A = Reply × List ℕ} (entry_reply result, m.new) (M (act (prefetch port queue)) m.old) }
{
    let s = sound::test(m)?;
    moves::prefetch(m, s, port, queue)
}

// Credit: adds to a queue's outward credit.
pub fn credit(m: &mut [u8], port: u32, queue: u32, amount: u32) -> Result<(), Refusal>
    ensures { ◌≡◌ {A = Reply × List ℕ} (plain_reply result, m.new) (M (act (credit port queue amount)) m.old) }
{
    let s = sound::test(m)?;
    credits::credit(m, s, port, queue, amount)
}

// Map: sets the port of one destination id.
pub fn map_to(m: &mut [u8], id: u32, port: u32) -> Result<(), Refusal>
    ensures { ◌≡◌ {A = Reply × List ℕ} (plain_reply result, m.new) (M (act (map_to id port)) m.old) }
{
    let s = sound::test(m)?;
    maps::map_to(m, s, id, port)
}

// Turn: what leaves the port, or idle.
pub fn turn(m: &mut [u8], port: u32) -> Result<Option<(Sent, Exit)>, Refusal>
    ensures { ◌≡◌ {A = Reply × List ℕ} (turn_reply result, m.new) (M (act (turn untimed port)) m.old) }
{
    let s = sound::test(m)?;
    turns::turn(m, s, port)
}

// Ready: the port's ready word and ready count.
pub fn ready(m: &[u8], port: u32) -> Result<Readiness, Refusal>
    ensures { ready_reply result ≡ (M (act (ready port)) m.now).0 }
{
    let s = sound::test(m)?;
    turns::ready(m, s, port)
}

// Where: the node's list and its position in it.
pub fn where_is(m: &[u8], id: EntryId) -> Result<(ListKind, u16), Refusal>
    ensures { where_reply result ≡ (M (act (where_is id.0)) m.now).0 }
{
    let s = sound::test(m)?;
    finds::where_is(m, s, id)
}

// Where, of a number above every entry id: no such node, but 3 first.
pub fn where_past(m: &[u8]) -> Result<(ListKind, u16), Refusal>
    ensures { (y : ℕ) → 65535 < y → where_reply result ≡ (M (act (where_is y)) m.now).0 }
{
    sound::test(m)?;
    Err(Refusal::NoSuchId)
}

// Round: a stitch at each port, a prefetch for each port and queue, a turn at each port; each port's turn is told in four bytes of the room.
pub fn round(m: &mut [u8], turns: &mut [u8]) -> Result<(), Refusal>
    ensures { ◌≡◌ {A = Reply × List ℕ × List ℕ} (plain_reply result, m.new, turns.new) (round_on m.old turns.old) }
{
    let s = sound::test(m)?;
    rounds::round(m, s, turns)
}

// Run: the calls that the fields ask, one after another, with one test of the memory; each answer is told in four bytes of the room. It ends at
// a bad field, at the end of the fields, or where four bytes no longer fit.
pub fn run(m: &mut [u8], fields: &[u8], answers: &mut [u8]) -> Result<Ran, Refusal>
    ensures { ◌≡◌ {A = Report × List ℕ × List ℕ} (report_in result, m.new, answers.new)
        (run_on m.old fields.now answers.old) }
{
    let s = sound::test(m)?;
    Ok(runs::run(m, s, fields, answers))
}

// Audit: writes every node's place, eight bytes each, port by port and index by index.
pub fn audit(m: &[u8], places: &mut [u8]) -> Result<(), Refusal>
    ensures { ◌≡◌ {A = Reply × List ℕ} (plain_reply result, places.new) (audit_on m.now places.old) }
{
    let s = sound::test(m)?;
    audits::audit(m, s, places)
}

// Find: the first rule of soundness that a memory breaks, and the first item that shows it. Never refused.
pub fn find(m: &[u8]) -> Option<Broken>
    ensures { result ≡ broken_in m.now }
{
    sound::first_broken(m)
}

// Repair: the starting ledger for the memory's own settings, with the map kept.
pub fn repair(m: &mut [u8]) -> Result<(), Refusal>
    ensures { ◌≡◌ {A = Reply × List ℕ} (plain_reply result, m.new) (repaired m.old) }
{
    repairs::repair(m)
}

// Clear: lifts the mark of a port.
pub fn clear(m: &mut [u8], port: u32) -> Result<(), Refusal>
    ensures { ◌≡◌ {A = Reply × List ℕ} (plain_reply result, m.new) (M (act (clear port)) m.old) }
{
    let s = sound::test(m)?;
    halts::clear(m, s, port)
}

// Report: the mark of a port, 0 or the refusal for which it is halted.
pub fn report(m: &[u8], port: u32) -> Result<u8, Refusal>
    ensures { report_reply result ≡ (M (act (report port)) m.now).0 }
{
    let s = sound::test(m)?;
    halts::report(m, s, port)
}

// Timed turn: a turn that is given the time, by which the wait of what leaves is counted in the port's buckets.
pub fn timed_turn(m: &mut [u8], port: u32, time: u32) -> Result<Option<(Sent, Exit)>, Refusal>
    ensures { ◌≡◌ {A = Reply × List ℕ} (turn_reply result, m.new) (M (act (turn (at time) port)) m.old) }
{
    let s = sound::test(m)?;
    waits::timed_turn(m, s, port, time)
}

// Bucket: how many packets the port's timed turns sent whose wait falls there.
pub fn bucket(m: &[u8], port: u32, number: u32) -> Result<u32, Refusal>
    ensures { bucket_reply result ≡ (M (act (bucket port number)) m.now).0 }
{
    let s = sound::test(m)?;
    waits::bucket(m, s, port, number)
}
