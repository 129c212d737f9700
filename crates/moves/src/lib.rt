// Stitch and prefetch, on a memory that is a switch state: judged first, then the node moves from list to list.
#![tactic(auto)]

ghost use Rattle.std.specs.Prelude.{◌≡◌, List, ℕ};
ghost use Rattle.ledger.specs.Answers.{sent_of, entry_reply, stitch_reply};
ghost use Rattle.ledger.specs.Calls.{Reply, stitch, prefetch, stitch_record};
ghost use Rattle.layout.specs.Shapes.{settings_of};
ghost use Rattle.layout.specs.Picture.{ledger_in};
ghost use Rattle.memory.specs.Judged.{Works, judgement_of, judged};
ghost use Rattle.memory.specs.Memory.{acted};

use layout::Shape;
use ledger::{EntryId, Refusal, Sent};

// The first refusal of a prefetch that applies.
#[tactic(auto, using(memory::proofs::Judging::judging), unfolding(memory::specs::Judged::judged))]
pub fn judge_prefetch(m: &[u8], s: Shape, port: u32, queue: u32) -> Result<(), Refusal>
    requires { Works s m.now }
    ensures { judgement_of result ≡ judged (settings_of s) (ledger_in (settings_of s) m.now) (prefetch port queue) }
{
    let p = port as usize;
    let q = queue as usize;
    if s.ports <= p {
        return Err(Refusal::NoPort);
    }
    if s.queues <= q {
        return Err(Refusal::NoQueue);
    }
    let waiting = lists::count(m, s, geometry::egress_list(s, p, q));
    if waiting == 0 {
        return Err(Refusal::NothingThere);
    }
    let used = lists::count(m, s, geometry::prefetch_list(s, p, q));
    if s.slots <= used as usize {
        return Err(Refusal::SlotsInUse);
    }
    Ok(())
}

// The oldest egress node to the end of the prefetch list.
pub fn prefetch(m: &mut [u8], s: Shape, port: u32, queue: u32) -> Result<EntryId, Refusal>
    requires { Works s m.old }
    ensures { ◌≡◌ {A = Reply × List ℕ} (entry_reply result, m.new) (acted (settings_of s) m.old (prefetch port queue)) }
{
    judge_prefetch(m, s, port, queue)?;
    let p = port as usize;
    let q = queue as usize;
    let from = geometry::egress_list(s, p, q);
    let to = geometry::prefetch_list(s, p, q);
    // two calls, so that the compiler takes both in: a call of one function for both would copy the shape
    let x = lists::pop(m, s, from);
    lists::push(m, s, to, x);
    Ok(x)
}

// The first refusal of a stitch that applies.
#[tactic(auto, using(memory::proofs::Judging::judging), unfolding(memory::specs::Judged::judged))]
pub fn judge_stitch(m: &[u8], s: Shape, port: u32) -> Result<(), Refusal>
    requires { Works s m.now }
    ensures { judgement_of result ≡ judged (settings_of s) (ledger_in (settings_of s) m.now) (stitch port) }
{
    let p = port as usize;
    if s.ports <= p {
        return Err(Refusal::NoPort);
    }
    let waiting = lists::count(m, s, geometry::ingress_list(s, p));
    if waiting == 0 {
        return Err(Refusal::NothingThere);
    }
    Ok(())
}

// The record of packet k, stitched to a port.
#[tactic(auto, unfolding(ledger::specs::Calls::stitch_record))]
fn record_of(k: Sent, to: u8) -> [u8; 10]
    ensures { result ≡ stitch_record (sent_of k) to }
{
    let [x0, x1] = k.entry.0.to_be_bytes();
    let [n0, n1] = k.length.to_be_bytes();
    let [t0, t1, t2, t3] = k.timestamp.to_be_bytes();
    [x0, x1, n0, n1, k.queue, to, t0, t1, t2, t3]
}

// The oldest ingress node to the egress list of the port that the map names now.
pub fn stitch(m: &mut [u8], s: Shape, port: u32) -> Result<[u8; 10], Refusal>
    requires { Works s m.old }
    ensures { ◌≡◌ {A = Reply × List ℕ} (stitch_reply result, m.new) (acted (settings_of s) m.old (stitch port)) }
{
    judge_stitch(m, s, port)?;
    let from = geometry::ingress_list(s, port as usize);
    let k = records::packet(m, s, lists::first(m, s, from));
    let to = parts::mapped(m, s, usize::from(k.destination));
    let at = geometry::egress_list(s, usize::from(to), usize::from(k.queue));
    // two calls, so that the compiler takes both in: a call of one function for both would copy the shape
    let x = lists::pop(m, s, from);
    lists::push(m, s, at, x);
    Ok(record_of(k, to))
}
