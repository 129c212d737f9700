// What each answer leaves in the room that a caller of C lends for it: 0 and the answer's values, or the number of the refusal and the
// room as it was.
#![tactic(auto)]

ghost use Rattle.std.specs.Prelude.{◌≡◌, ℕ, MatchResult};
ghost use Rattle.ledger.specs.Answers.{number_of, kind_of, exit_of, sent_of, plain_reply, stitch_reply, entry_reply, turn_reply, ready_reply, where_reply};
ghost use Rattle.ledger.specs.Answers.{report_reply, bucket_reply, show_reply};
ghost use Rattle.ledger.specs.Answers.{number_in};
ghost use Rattle.rooms.specs.Rooms.{entry_room, record_room, side_byte, sent_bytes, sent_room, ready_room, mark_room, bucket_room, part_room};
ghost use Rattle.rooms.specs.Rooms.{found_numbers};
ghost use Rattle.ledger.specs.Audit.{place_bytes, place_room};

use ledger::{Broken, EntryId, Exit, ListKind, Readiness, Refusal, Sent};

pub fn plain(answer: Result<(), Refusal>) -> u32
    ensures { result ≡ number_in (plain_reply answer) }
{
    match answer {
        Ok(()) => 0,
        Err(no) => u32::from(no),
    }
}

// An answer that has one room, which its value fills.
fn put<T: Drop>(answer: Result<T, Refusal>, room: &mut T) -> u32
    ensures { MatchResult answer (λ x. (result ≡ 0) × (room.new ≡ x)) (λ no. (result ≡ number_of no) × (room.new ≡ room.old)) }
{
    match answer {
        Ok(x) => {
            *room = x;
            0
        }
        Err(no) => u32::from(no),
    }
}

pub fn put_entry(answer: Result<EntryId, Refusal>, room: &mut u16) -> u32
    ensures { (result ≡ number_in (entry_reply answer)) × (room.new ≡ entry_room (entry_reply answer) room.old) }
{
    put(answer.map(|id| id.0), room)
}

pub fn put_record(answer: Result<[u8; 10], Refusal>, room: &mut [u8; 10]) -> u32
    ensures { (result ≡ number_in (stitch_reply answer)) × (room.new ≡ record_room (stitch_reply answer) room.old) }
{
    put(answer, room)
}

fn side_byte(side: Exit) -> u8
    ensures { result ≡ side_byte (exit_of side) }
{
    side as u8
}

// Destination and price have two bytes in the room, wider than they are now.
#[tactic(auto, unfolding(crate::specs::Rooms::sent_bytes))]
fn sent_bytes(k: Sent, side: Exit) -> [u8; 16]
    ensures { result ≡ sent_bytes (sent_of k) (exit_of side) }
{
    let x = k.entry.0.to_be_bytes();
    let n = k.length.to_be_bytes();
    let d = u16::from(k.destination).to_be_bytes();
    let t = k.timestamp.to_be_bytes();
    let c = u16::from(k.price).to_be_bytes();
    [
        side_byte(side),
        k.queue,
        x[0],
        x[1],
        n[0],
        n[1],
        d[0],
        d[1],
        t[0],
        t[1],
        t[2],
        t[3],
        k.poisoned,
        k.transaction,
        c[0],
        c[1],
    ]
}

// Of an idle turn the first byte alone is written.
pub fn put_sent(answer: Result<Option<(Sent, Exit)>, Refusal>, room: &mut [u8; 16]) -> u32
    ensures { (result ≡ number_in (turn_reply answer)) × (room.new ≡ sent_room (turn_reply answer) room.old) }
{
    match answer {
        Ok(None) => {
            room[0] = 0;
            0
        }
        Ok(Some((k, side))) => {
            *room = sent_bytes(k, side);
            0
        }
        Err(no) => u32::from(no),
    }
}

pub fn put_ready(answer: Result<Readiness, Refusal>, word: &mut u64, count: &mut u32) -> u32
    ensures { (result ≡ number_in (ready_reply answer)) ×
        (◌≡◌ {A = ℕ × ℕ} (word.new, count.new) (ready_room (ready_reply answer) (word.old, count.old))) }
{
    match answer {
        Ok(ready) => {
            *word = ready.word;
            *count = ready.count;
            0
        }
        Err(no) => u32::from(no),
    }
}

pub fn put_part(
    answer: Result<(EntryId, u16), Refusal>,
    owner: &mut u32,
    at: &mut u64,
    length: &mut u32,
) -> u32
    ensures { (result ≡ number_in (show_reply answer)) × (◌≡◌ {A = ℕ × ℕ × ℕ} (owner.new, at.new, length.new)
        (part_room (show_reply answer) (owner.old, at.old, length.old))) }
{
    match answer {
        Ok((id, n)) => {
            *owner = u32::from(id.port());
            *at = packets::slot_of(id) as u64;
            *length = u32::from(n);
            0
        }
        Err(no) => u32::from(no),
    }
}

#[tactic(auto, unfolding(ledger::specs::Audit::place_bytes))]
pub fn place_bytes(x: EntryId, list: ListKind, i: u16) -> [u8; 8]
    ensures { result ≡ place_bytes x.0 (kind_of list) i }
{
    let id = x.0.to_be_bytes();
    let at = i.to_be_bytes();
    [
        id[0],
        id[1],
        list.kind(),
        list.port(),
        list.queue(),
        0,
        at[0],
        at[1],
    ]
}

pub fn put_place(answer: Result<(ListKind, u16), Refusal>, x: EntryId, room: &mut [u8; 8]) -> u32
    ensures { (result ≡ number_in (where_reply answer)) × (room.new ≡ place_room x.0 (where_reply answer) room.old) }
{
    match answer {
        Ok((list, i)) => {
            *room = place_bytes(x, list, i);
            0
        }
        Err(no) => u32::from(no),
    }
}

// Where no rule is broken, 0 and 0.
pub fn put_found(found: Option<Broken>, rule: &mut u32, item: &mut u64)
    ensures { ◌≡◌ {A = ℕ × ℕ} (rule.new, item.new) (found_numbers found) }
{
    *rule = found.map_or(0, |first| first.rule as u32);
    *item = found.map_or(0, |first| first.item as u64);
}

pub fn put_report(answer: Result<u8, Refusal>, room: &mut u32) -> u32
    ensures { (result ≡ number_in (report_reply answer)) × (room.new ≡ mark_room (report_reply answer) room.old) }
{
    put(answer.map(u32::from), room)
}

pub fn put_bucket(answer: Result<u32, Refusal>, room: &mut u32) -> u32
    ensures { (result ≡ number_in (bucket_reply answer)) × (room.new ≡ bucket_room (bucket_reply answer) room.old) }
{
    put(answer, room)
}
