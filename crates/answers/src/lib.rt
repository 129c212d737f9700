// The four bytes that tell an answer in lent room: refusal number, 1 if idle, entry id (2) or 0.
#![tactic(auto, unfolding(ledger::specs::Rounds::answer_bytes))]

ghost use Rattle.std.specs.Prelude.{◌≡◌, ◌++◌, ◌+◌, ◌≤◌, length, take, drop};
ghost use Rattle.ledger.specs.Answers.{number_of, plain_reply, entry_reply, stitch_reply, turn_reply};
ghost use Rattle.ledger.specs.Calls.{refused, entry};
ghost use Rattle.ledger.specs.Rounds.{answer_bytes};

use ledger::{EntryId, Exit, Refusal, Sent};

// kept: functions and no From: neither a Result nor four bytes are this crate's.

pub fn of_refusal(no: Refusal) -> [u8; 4]
    ensures { result ≡ answer_bytes (refused (number_of no)) }
{
    [no.number(), 0, 0, 0]
}

pub fn of_node(x: EntryId) -> [u8; 4]
    ensures { result ≡ answer_bytes (entry x.0) }
{
    let [high, low] = x.0.to_be_bytes();
    [0, 0, high, low]
}

pub fn of_plain(done: Result<(), Refusal>) -> [u8; 4]
    ensures { result ≡ answer_bytes (plain_reply done) }
{
    match done {
        Ok(()) => [0; 4],
        Err(no) => of_refusal(no),
    }
}

pub fn of_entry(entry: Result<EntryId, Refusal>) -> [u8; 4]
    ensures { result ≡ answer_bytes (entry_reply entry) }
{
    entry.map_or_else(of_refusal, of_node)
}

// The id stands in the first two bytes of the record.
pub fn of_stitched(stitched: Result<[u8; 10], Refusal>) -> [u8; 4]
    ensures { result ≡ answer_bytes (stitch_reply stitched) }
{
    match stitched {
        Ok(record) => [0, 0, record[0], record[1]],
        Err(no) => of_refusal(no),
    }
}

pub fn of_turned(left: Result<Option<(Sent, Exit)>, Refusal>) -> [u8; 4]
    ensures { result ≡ answer_bytes (turn_reply left) }
{
    match left {
        Ok(None) => [0, 1, 0, 0],
        Ok(Some((k, _))) => of_node(k.entry),
        Err(no) => of_refusal(no),
    }
}

// Four bytes of the room become these.
pub fn put(room: &mut [u8], at: usize, bytes: [u8; 4])
    requires { at + 4 ≤ length room.old }
    ensures { room.new ≡ take at room.old ++ (bytes ++ drop (at + 4) room.old) }
{
    room[at..at + 4].copy_from_slice(&bytes);
}
