// How long they wait (paper 02, Q-13): the wait of a packet that a timed turn sends, its bucket, the timed turn, and the reading of a bucket.
#![tactic(auto)]

ghost use Rattle.std.specs.Prelude.{◌≡◌, ℕ, List};
ghost use Rattle.ledger.specs.Buckets.{at, wait_of, bucket_of, one_more, bucket#};
ghost use Rattle.ledger.specs.Answers.{turn_reply, bucket_reply};
ghost use Rattle.ledger.specs.Calls.{Reply, turn, bucket};
ghost use Rattle.layout.specs.declared.Table.TheVariants.{Buckets};
ghost use Rattle.layout.specs.Tables.{get, put};
ghost use Rattle.layout.specs.Shapes.{settings_of};
ghost use Rattle.memory.specs.Judged.{Works};
ghost use Rattle.memory.specs.Memory.{acted};
ghost use Rattle.parts.specs.Parts.{InPorts};

use layout::Shape;
use ledger::{Exit, Refusal, Sent};

// The wait: the time less the timestamp, on a clock that starts again after its end.
#[tactic(auto, unfolding(ledger::specs::Buckets::wait_of))]
fn wait_of(time: u32, stamp: u32) -> u32
    ensures { result ≡ wait_of time stamp }
{
    time.wrapping_sub(stamp)
}

// The bucket of a wait: 0 for none, else its highest set bit, counted from 1.
#[tactic(auto, unfolding(ledger::specs::Buckets::bucket_of))]
fn bucket_of(wait: u32) -> u32
    ensures { result ≡ bucket_of wait }
{
    u32::BITS - wait.leading_zeros()
}

// A wait, counted in the buckets of port p. A bucket at its stop stays.
#[tactic(auto, using(crate::proofs::Laws::counts), unfolding(ledger::specs::Buckets::one_more))]
fn count(m: &mut [u8], s: Shape, p: usize, wait: u32)
    requires { InPorts s p m.old }
    ensures { m.new ≡ put (settings_of s) Buckets (bucket# p (bucket_of wait))
        (one_more (get (settings_of s) m.old Buckets (bucket# p (bucket_of wait)))) m.old }
{
    let b = bucket_of(wait) as usize;
    let n = parts::bucket(m, s, p, b);
    parts::set_bucket(m, s, p, b, n.saturating_add(1));
}

// The timed turn: a turn, and the wait of what it sends is counted.
pub fn timed_turn(
    m: &mut [u8],
    s: Shape,
    port: u32,
    time: u32,
) -> Result<Option<(Sent, Exit)>, Refusal>
    requires { Works s m.old }
    ensures { ◌≡◌ {A = Reply × List ℕ} (turn_reply result, m.new) (acted (settings_of s) m.old (turn (at time) port)) }
{
    let left = turns::turn(m, s, port)?;
    if let Some((k, _)) = left {
        count(m, s, port as usize, wait_of(time, k.timestamp));
    }
    Ok(left)
}

// The reading of a bucket.
#[tactic(auto, using(memory::proofs::Judging::judging), unfolding(memory::specs::Memory::acted))]
pub fn bucket(m: &[u8], s: Shape, port: u32, number: u32) -> Result<u32, Refusal>
    requires { Works s m.now }
    ensures { bucket_reply result ≡ (acted (settings_of s) m.now (bucket port number)).0 }
{
    let p = port as usize;
    if s.ports <= p {
        return Err(Refusal::NoPort);
    }
    if 33 <= number {
        return Err(Refusal::NoQueue);
    }
    Ok(parts::bucket(m, s, p, number as usize))
}
