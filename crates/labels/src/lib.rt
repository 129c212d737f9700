// What the reader's and the writer's answers leave in the rooms that a caller of C lends: struct vr_header, eight numbers, and the twelve bytes
// of a header with their count.
#![tactic(auto)]

ghost use Rattle.std.specs.Prelude.{◌≡◌, List, ℕ, ◌++◌, ◌≤◌, length, drop};
ghost use Rattle.codec.specs.Label.{label_in};
ghost use Rattle.codec.specs.Reader.{read_of};
ghost use Rattle.labels.specs.Labels.{label_at, label_numbers, label_room, written_room};

use codec::{Label, Written};
use ledger::Refusal;

// The label that the eight numbers say, and below its numbers.
// kept: the C interface: they are those of struct vr_header, of which codec, where a From for its Label would have to stand, knows nothing.
pub fn label_at(fields: &[u32; 8]) -> Label
    ensures { label_in result ≡ label_at fields.now }
{
    Label {
        destination: fields[0],
        source: fields[1],
        queue: fields[2],
        length: fields[3],
        poisoned: fields[4],
        timestamp: fields[5],
        credit: fields[6],
        transaction: fields[7],
    }
}

fn label_numbers(v: Label) -> [u32; 8]
    ensures { result ≡ label_numbers (label_in v) }
{
    [
        v.destination,
        v.source,
        v.queue,
        v.length,
        v.poisoned,
        v.timestamp,
        v.credit,
        v.transaction,
    ]
}

pub fn put_label(read: Result<Label, Refusal>, room: &mut [u32; 8]) -> u32
    ensures { ◌≡◌ {A = ℕ × List ℕ} (result, room.new) (label_room (read_of read) room.old) }
{
    match read {
        Ok(v) => {
            *room = label_numbers(v);
            0
        }
        Err(no) => u32::from(no),
    }
}

// Bytes over as many of the room's. A loop: std's copy would have the archive call memmove.
fn copy(bytes: &[u8], room: &mut [u8])
    requires { length bytes.now ≤ length room.old }
    ensures { room.new ≡ bytes.now ++ drop (length bytes.now) room.old }
{
    for (i, b) in bytes.iter().enumerate() {
        room[i] = *b;
    }
}

// The header's bytes alone are written: the rest of the room stays.
pub fn put_header(written: Result<Written, Refusal>, room: &mut [u8; 12], size: &mut u32) -> u32
    ensures { ◌≡◌ {A = ℕ × List ℕ × ℕ} (result, room.new, size.new) (written_room written room.old size.old) }
{
    match written {
        Ok(w) => {
            copy(&w.bytes[..w.size as usize], room);
            *size = w.size;
            0
        }
        Err(no) => u32::from(no),
    }
}
