// The run (paper 02, Q-10), on a memory that is a switch state: the calls that lent fields ask, one after another, each told in four bytes of
// lent room. The memory is not tested again between them; ready words are kept from call to call.
#![tactic(auto)]

ghost use Rattle.std.specs.Prelude.{◌≡◌, List, ℕ};
ghost use Rattle.layout.specs.Shapes.{settings_of};
ghost use Rattle.memory.specs.Judged.{Works};
ghost use Rattle.memory.specs.Runs.{Report, did, ran};
ghost use Rattle.runs.specs.Runs.{why_of, stop_of};

use asks::Asked;
use layout::Shape;
use words::Words;

// Why a run stopped, with its number: its fields ended, one of them is bad, or four bytes no longer fit.
#[derive(Clone, Copy)]
pub enum Why {
    Ended = 0,
    BadField = 1,
    NoRoom = 2,
}

// How many fields a run did, and why it stopped.
#[derive(Clone, Copy)]
pub struct Ran {
    pub count: usize,
    pub why: Why,
}

// Why a run stops at what is asked: at a call it has no room for the answer.
fn why_of(asked: Asked) -> Why
    ensures { result ≡ stop_of asked }
{
    match asked {
        Asked::Call { .. } => Why::NoRoom,
        Asked::Bad => Why::BadField,
        Asked::End => Why::Ended,
    }
}

// The run. Each field is read into a local; one that is no call ends the run there, with the count so far (done).
pub fn run(m: &mut [u8], s: Shape, fields: &[u8], room: &mut [u8]) -> Ran
    requires { Works s m.old }
    ensures { ◌≡◌ {A = Report × List ℕ × List ℕ} (did result.count (why_of result.why), m.new, room.new)
        (ran (settings_of s) m.old fields.now room.old) }
{
    let mut words = Words::new();
    let size = s.least - 2;
    let fits = room.len() / 4;
    let mut at = 0;
    for done in 0..fits {
        let asked = asks::asked_at(fields, at, size);
        let Asked::Call { task, next } = asked else {
            return Ran {
                count: done,
                why: why_of(asked),
            };
        };
        let bytes = tasks::carry_out(m, s, fields, task, &mut words);
        answers::put(room, 4 * done, bytes);
        at = next;
    }
    Ran {
        count: fits,
        why: why_of(asks::asked_at(fields, at, size)),
    }
}
