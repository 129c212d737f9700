// The round, on a memory that is a switch state: one stitch at each port in order, then one prefetch for each port and queue, then one turn
// at each port, told in lent room. A refusal inside changes nothing, and the round goes on.
#![tactic(auto)]

ghost use Rattle.std.specs.Prelude.{◌≡◌, List, [], ◌∷◌, ◌++◌, ℕ, ◌+◌, ◌*◌, ◌≤◌, ◌<◌, length, take, drop};
ghost use Rattle.ledger.specs.Answers.{plain_reply};
ghost use Rattle.ledger.specs.Buckets.{untimed};
ghost use Rattle.ledger.specs.Calls.{Reply, prefetch, turn};
ghost use Rattle.ledger.specs.Rounds.{each, stitches, prefetches, turns, answer_bytes, answers_in};
ghost use Rattle.layout.specs.Shapes.{settings_of};
ghost use Rattle.memory.specs.Judged.{Works};
ghost use Rattle.memory.specs.Memory.{acted};
ghost use Rattle.memory.specs.Rounds.{after_acts, answers_to, rounded};

use layout::Shape;
use ledger::Refusal;

// One stitch at each port, in order.
fn stitch_each(m: &mut [u8], s: Shape)
    requires { Works s m.old }
    ensures { (m.new ≡ after_acts (settings_of s) m.old (stitches (settings_of s))) × Works s m.new }
{
    for p in 0..s.ports {
        let _ = moves::stitch(m, s, p as u32);
    }
}

// One prefetch for each queue of port p, from 0 on.
fn prefetch_port(m: &mut [u8], s: Shape, p: u32)
    requires { Works s m.old }
    ensures { m.new ≡ after_acts (settings_of s) m.old (each (λ q. prefetch p q ∷ []) s.queues) }
{
    for q in 0..s.queues {
        let _ = moves::prefetch(m, s, p, q as u32);
    }
}

// One prefetch for each port and queue, port by port.
fn prefetch_each(m: &mut [u8], s: Shape)
    requires { Works s m.old }
    ensures { (m.new ≡ after_acts (settings_of s) m.old (prefetches (settings_of s))) × Works s m.new }
{
    for p in 0..s.ports {
        prefetch_port(m, s, p as u32);
    }
}

// The turn of port p, told in its four bytes of the room.
fn turn_port(m: &mut [u8], s: Shape, p: usize, room: &mut [u8])
    requires { Works s m.old × (p < s.ports) × (4 * s.ports ≤ length room.old) }
    ensures m_after { m.new ≡ (acted (settings_of s) m.old (turn untimed p)).1 }
    ensures room_after { room.new ≡ take (4 * p) room.old
        ++ (answer_bytes (acted (settings_of s) m.old (turn untimed p)).0 ++ drop (4 * p + 4) room.old) }
{
    let bytes = answers::of_turned(turns::turn(m, s, p as u32));
    answers::put(room, 4 * p, bytes);
}

// One turn at each port, in order.
fn turn_each(m: &mut [u8], s: Shape, room: &mut [u8])
    requires { Works s m.old × (4 * s.ports ≤ length room.old) }
    ensures m_after { (m.new ≡ after_acts (settings_of s) m.old (turns (settings_of s))) × Works s m.new }
    ensures room_after { room.new ≡ answers_in (answers_to (settings_of s) m.old (turns (settings_of s))) room.old }
{
    for p in 0..s.ports {
        turn_port(m, s, p, room);
    }
}

// The round: refused where the room has less than four bytes a port.
#[tactic(auto, using(memory::proofs::Rounds::round_short, memory::proofs::Rounds::round_done))]
pub fn round(m: &mut [u8], s: Shape, room: &mut [u8]) -> Result<(), Refusal>
    requires { Works s m.old }
    ensures { ◌≡◌ {A = Reply × List ℕ × List ℕ} (plain_reply result, m.new, room.new)
        (rounded (settings_of s) m.old room.old) }
{
    if room.len() < 4 * s.ports {
        return Err(Refusal::ShortRoom);
    }
    stitch_each(m, s);
    prefetch_each(m, s);
    turn_each(m, s, room);
    Ok(())
}
