// What the fields of a run ask, one after another (paper 02, Q-10): the bench's calls, of which setup is bad, and an arrival whose header has
// the switch's own size.
#![tactic(auto)]

ghost use Rattle.std.specs.Prelude.{◌≡◌, List, ℕ, ◌+◌, ◌≤◌, length};
ghost use Rattle.fields.specs.Orders.{header_in, call_in, Keeps};
ghost use Rattle.memory.specs.Runs.{of_call, of_bench, is_own, whole_asked, asked_at};
ghost use Rattle.asks.specs.Asks.{ask_of, asked_of, Within, Stands};

use fields::{Field, Order, Read};
use numbers::Number;

// One call of a run. An arrival's header is the size bytes from at on.
#[derive(Clone, Copy)]
pub enum Task {
    Arrive { port: u32, at: usize, size: usize },
    Stitch { port: u32 },
    Prefetch { port: u32, queue: u32 },
    Turn { port: u32 },
    Credit { port: u32, queue: u32, amount: u32 },
    Map { id: u32, port: u32 },
}

// What is asked at a place: a call, with the place past its field; a field that is bad; or the fields have ended.
// kept: paper 01 names this form, an enum in a local that a let .. else takes apart (docs/DECISIONS.md, 101).
#[derive(Clone, Copy)]
pub enum Asked {
    Call { task: Task, next: usize },
    Bad,
    End,
}

// The task of a bench's order: setup is none.
fn task_of(order: Order) -> Option<Task>
    ensures asked { (s : List ℕ) (next : ℕ) → ask_of s (asked_of result next) ≡ of_call (call_in order (header_in s order)) next }
    ensures within { (at n next : ℕ) → Keeps at n (Read.Call order next) → Within at n (asked_of result next) }
{
    match order {
        Order::Setup { .. } => None,
        Order::Arrive { port, at } => Some(Task::Arrive { port, at, size: 10 }),
        Order::Stitch { port } => Some(Task::Stitch { port }),
        Order::Prefetch { port, queue } => Some(Task::Prefetch { port, queue }),
        Order::Turn { port } => Some(Task::Turn { port }),
        Order::Credit {
            port,
            queue,
            amount,
        } => Some(Task::Credit {
            port,
            queue,
            amount,
        }),
        Order::Map { id, port } => Some(Task::Map { id, port }),
    }
}

// What the bench reads, in a run.
fn of_bench(read: Read) -> Asked
    ensures asked { (s : List ℕ) → ask_of s result ≡ of_bench s read }
    ensures within { (at n : ℕ) → Keeps at n read → Within at n result }
{
    match read {
        Read::Call { order, next } => match task_of(order) {
            Some(task) => Asked::Call { task, next },
            None => Asked::Bad,
        },
        Read::Bad => Asked::Bad,
        Read::End => Asked::End,
    }
}

// Whether a field is an arrival whose header has the switch's own size.
fn is_own(tag: u8, len: usize, size: usize) -> bool
    requires { size ≤ 12 }
    ensures { result ≡ is_own size tag len }
{
    tag == 2 && len == 1 + size
}

// What a whole field asks, whose value is the len bytes from v on.
fn whole(s: &[u8], tag: u8, v: usize, len: usize, next: usize, size: usize) -> Asked
    requires { Stands s.now v len next size }
    ensures asked { ask_of s.now result ≡ whole_asked size s.now tag v len next }
    ensures within { (at : ℕ) → v ≡ at + 3 → Within at (length s.now) result }
{
    if is_own(tag, len, size) {
        let port = u32::from(u8::read(s, v));
        let task = Task::Arrive {
            port,
            at: v + 1,
            size,
        };
        return Asked::Call { task, next };
    }
    of_bench(fields::order_of(s, tag, v, len, next))
}

// What is asked at a place of the fields of a run on a switch whose headers have so many bytes.
// It is taken into the loop of a run, where a call of it costs time.
#[inline(always)]
#[tactic(auto, unfolding(memory::specs::Runs::asked_at))]
pub fn asked_at(s: &[u8], at: usize, size: usize) -> Asked
    requires { size ≤ 12 }
    ensures asked { ask_of s.now result ≡ asked_at size s.now at }
    ensures within { Within at (length s.now) result }
{
    match fields::field_at(s, at) {
        Field::Whole {
            tag,
            start,
            len,
            next,
        } => whole(s, tag, start, len, next, size),
        Field::Cut => Asked::Bad,
        Field::End => Asked::End,
    }
}
