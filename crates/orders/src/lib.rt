// Each order of a field carried out on the memory, and what the line for it says.
#![tactic(auto)]

ghost use Rattle.std.specs.Prelude.{◌≡◌, List, ℕ, ◌+◌, ◌≤◌, length};
ghost use Rattle.ledger.specs.Answers.{number_of, plain_reply, stitch_reply, entry_reply, turn_reply};
ghost use Rattle.memory.specs.Memory.{M};
ghost use Rattle.fields.specs.Orders.{header_in, call_in};
ghost use Rattle.orders.specs.Orders.{said_of, carried};

use fields::Order;
use ledger::{EntryId, Exit, Refusal, Sent};
use numbers::Number;

// What a line says after its number.
// kept: a refusal is its number here, since carried reads it off the reply of M.
#[derive(Clone, Copy)]
pub enum Said {
    Done,
    Node(u16),
    Idle,
    No(u8),
    Bad,
}

fn refused(no: Refusal) -> Said
    ensures { result ≡ Said.No (number_of no) }
{
    Said::No(no.number())
}

fn plain(answer: Result<(), Refusal>) -> Said
    ensures { result ≡ said_of (plain_reply answer) }
{
    answer.map_or_else(refused, |()| Said::Done)
}

fn entry(answer: Result<EntryId, Refusal>) -> Said
    ensures { result ≡ said_of (entry_reply answer) }
{
    answer.map_or_else(refused, |id| Said::Node(id.0))
}

// A stitch's record begins with the entry id.
fn stitched(answer: Result<[u8; 10], Refusal>) -> Said
    ensures { result ≡ said_of (stitch_reply answer) }
{
    match answer {
        Ok(record) => Said::Node(u16::read(&record, 0)),
        Err(no) => refused(no),
    }
}

fn turned(answer: Result<Option<(Sent, Exit)>, Refusal>) -> Said
    ensures { result ≡ said_of (turn_reply answer) }
{
    match answer {
        Ok(None) => Said::Idle,
        Ok(Some((k, _))) => Said::Node(k.entry.0),
        Err(no) => refused(no),
    }
}

// The header of an arrival, which stands in s; of another order nothing.
pub fn header(s: &[u8], order: Order) -> &[u8]
    requires { (port h : ℕ) → order ≡ Order.Arrive port h → h + 10 ≤ length s.now }
    ensures { result.now ≡ header_in s.now order }
{
    match order {
        Order::Arrive { at, .. } => &s[at..at + 10],
        _ => &[],
    }
}

// The order's call on the memory m.
pub fn carry_out(m: &mut [u8], order: Order, header: &[u8]) -> Said
    ensures { ◌≡◌ {A = Said × List ℕ} (result, m.new) (carried (M (call_in order header.now) m.old)) }
{
    match order {
        Order::Setup {
            nodes,
            beat,
            slots,
            credit,
        } => {
            let told = settings::ten_bytes(nodes, beat, slots, credit);
            plain(switch::set_up(m, told))
        }
        Order::Arrive { port, .. } => entry(switch::arrive(m, port, header)),
        Order::Stitch { port } => stitched(switch::stitch(m, port)),
        Order::Prefetch { port, queue } => entry(switch::prefetch(m, port, queue)),
        Order::Turn { port } => turned(switch::turn(m, port)),
        Order::Credit {
            port,
            queue,
            amount,
        } => plain(switch::credit(m, port, queue, amount)),
        Order::Map { id, port } => plain(switch::map_to(m, id, port)),
    }
}
