// Turn and ready, on a memory that is a switch state: which queues are ready, which one a turn serves, and what leaves.
#![tactic(auto)]

ghost use Rattle.std.specs.Prelude.{◌≡◌, List, ℕ, ◌<◌};
ghost use Rattle.ledger.specs.Answers.{exit_of, turn_reply, ready_reply};
ghost use Rattle.ledger.specs.Buckets.{untimed};
ghost use Rattle.ledger.specs.Calls.{Reply, turn, ready, side_of};
ghost use Rattle.ledger.specs.Ready.{is_ready, ready_word, pick};
ghost use Rattle.layout.specs.declared.Table.TheVariants.{Last, Arrival, Outward};
ghost use Rattle.layout.specs.Tables.{put};
ghost use Rattle.layout.specs.Shapes.{settings_of};
ghost use Rattle.layout.specs.Picture.{ledger_in};
ghost use Rattle.memory.specs.Judged.{Works};
ghost use Rattle.memory.specs.Writes.{credit_mem};
ghost use Rattle.memory.specs.Memory.{acted};
ghost use Rattle.turns.specs.Turns.{AtPort, AtQueue, HasWord, Picked, CanSettle, CanServe, Departed, Served};

use layout::Shape;
use ledger::{EntryId, Exit, Readiness, Refusal, Sent};

// Whether queue q of port p is ready.
#[tactic(auto, using(memory::proofs::Judging::judging, crate::proofs::Laws::readies))]
pub fn is_ready(m: &[u8], s: Shape, p: usize, q: usize) -> bool
    requires { AtQueue s p q m.now }
    ensures { result ≡ is_ready (settings_of s) (ledger_in (settings_of s) m.now) p q }
{
    let at = geometry::prefetch_list(s, p, q);
    if lists::count(m, s, at) == 0 {
        return false;
    }
    if q == 0 {
        return true;
    }
    let cost = records::price(m, s, lists::first(m, s, at));
    let credit = parts::outward(m, s, p, q);
    u16::from(cost) <= credit
}

// The ready word of port p, made from its highest bit down.
pub fn ready_word(m: &[u8], s: Shape, p: usize) -> u64
    requires { AtPort s p m.now }
    ensures { result ≡ ready_word (settings_of s) (ledger_in (settings_of s) m.now) p }
{
    let mut word = 0;
    for q in (0..s.queues).rev() {
        word = word * 2 + u64::from(is_ready(m, s, p, q));
    }
    word
}

// The lowest set bit above the last served queue, or, if there is none, the lowest set bit of all.
#[tactic(auto, using(crate::proofs::Laws::masked_is, std::proofs::lemmas::Bool::Decides::nat_tests), unfolding(ledger::specs::Ready::pick))]
fn pick(word: u64, last: u8) -> u32
    requires { last < 64 }
    ensures { result ≡ pick last word }
{
    let above = word >> last >> 1 << 1 << last;
    if above == 0 {
        word.trailing_zeros()
    } else {
        above.trailing_zeros()
    }
}

// Queue 0 stays inside.
fn exit_of(q: usize) -> Exit
    ensures { exit_of result ≡ side_of q }
{
    if q == 0 { Exit::Inside } else { Exit::Outside }
}

// The credits and the last served queue after a packet of queue q left port p for home.
fn settle(m: &mut [u8], s: Shape, p: usize, q: usize, home: usize, given: u16, left: u16)
    requires { CanSettle s p q home m.old }
    ensures { m.new
        ≡ put (settings_of s) Last p q (credit_mem (settings_of s) Outward p q left (credit_mem (settings_of s) Arrival home q given m.old)) }
{
    parts::set_arrival(m, s, home, q, given);
    parts::set_outward(m, s, p, q, left);
    parts::set_last(m, s, p, q as u8);
}

// The queue that a turn of port p serves, by the port's ready word, in which some bit is set.
pub fn next_queue(m: &[u8], s: Shape, p: usize, word: u64) -> usize
    requires { HasWord s p word m.now }
    ensures { Picked s p result m.now }
{
    pick(word, parts::last(m, s, p)) as usize
}

// The oldest packet of queue q's slots leaves port p: its node, which is answered, goes home, its price is settled, and the queue is the
// last served.
#[tactic(auto, using(memory::proofs::Judging::judging, crate::proofs::Laws::departs))]
pub fn depart(m: &mut [u8], s: Shape, p: usize, q: usize) -> EntryId
    requires { CanServe s p q m.old }
    ensures { Departed s p q m.old m.new result.0 }
{
    let from = geometry::prefetch_list(s, p, q);
    let x = lists::first(m, s, from);
    let home = usize::from(x.port());
    let cost = u16::from(records::price(m, s, x));
    let given = parts::arrival(m, s, home, q) + cost;
    let left = parts::outward(m, s, p, q) - cost;
    let to = geometry::free_list(s, home);
    // two calls, so that the compiler takes both in: a call of one function for both would copy the shape
    let y = lists::pop(m, s, from);
    lists::push(m, s, to, y);
    settle(m, s, p, q, home, given, left);
    x
}

// The same, with all that is recorded for it.
#[tactic(auto, using(memory::proofs::Judging::judging))]
fn serve(m: &mut [u8], s: Shape, p: usize, q: usize) -> Sent
    requires { CanServe s p q m.old }
    ensures { Served s p q m.old m.new result }
{
    let from = geometry::prefetch_list(s, p, q);
    let k = records::packet(m, s, lists::first(m, s, from));
    depart(m, s, p, q);
    k
}

// The turn of a port: what leaves, or idle with nothing ready.
#[tactic(auto, using(memory::proofs::Judging::judging), unfolding(memory::specs::Memory::acted, memory::specs::Writes::refused_mem))]
pub fn turn(m: &mut [u8], s: Shape, port: u32) -> Result<Option<(Sent, Exit)>, Refusal>
    requires { Works s m.old }
    ensures { ◌≡◌ {A = Reply × List ℕ} (turn_reply result, m.new) (acted (settings_of s) m.old (turn untimed port)) }
{
    let p = port as usize;
    if s.ports <= p {
        return Err(Refusal::NoPort);
    }
    let word = ready_word(m, s, p);
    if word == 0 {
        return Ok(None);
    }
    let q = next_queue(m, s, p, word);
    let k = serve(m, s, p, q);
    Ok(Some((k, exit_of(q))))
}

// The ready word and the ready count of a port.
#[tactic(auto, using(memory::proofs::Judging::judging), unfolding(memory::specs::Memory::acted))]
pub fn ready(m: &[u8], s: Shape, port: u32) -> Result<Readiness, Refusal>
    requires { Works s m.now }
    ensures { ready_reply result ≡ (acted (settings_of s) m.now (ready port)).0 }
{
    let p = port as usize;
    if s.ports <= p {
        return Err(Refusal::NoPort);
    }
    let word = ready_word(m, s, p);
    Ok(Readiness {
        word,
        count: word.count_ones(),
    })
}
