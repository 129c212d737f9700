// Map, on a memory that is a switch state: judged first, then one entry is written.
#![tactic(auto)]

ghost use Rattle.std.specs.Prelude.{◌≡◌, List, ℕ};
ghost use Rattle.ledger.specs.Answers.{plain_reply};
ghost use Rattle.ledger.specs.Calls.{Reply, map_to};
ghost use Rattle.layout.specs.Shapes.{settings_of};
ghost use Rattle.layout.specs.Picture.{ledger_in};
ghost use Rattle.memory.specs.Judged.{Works, judgement_of, judged};
ghost use Rattle.memory.specs.Memory.{acted};

use layout::Shape;
use ledger::Refusal;

// The first refusal of a map that applies.
#[tactic(auto, using(memory::proofs::Judging::judging), unfolding(memory::specs::Judged::judged))]
pub fn judge_map(m: &[u8], s: Shape, id: u32, port: u32) -> Result<(), Refusal>
    requires { Works s m.now }
    ensures { judgement_of result ≡ judged (settings_of s) (ledger_in (settings_of s) m.now) (map_to id port) }
{
    if 4096 <= id {
        return Err(Refusal::NoSuchId);
    }
    if s.ports <= port as usize {
        return Err(Refusal::NoPort);
    }
    Ok(())
}

// The port of a destination id, set.
#[tactic(auto, using(crate::proofs::Laws::mapped_on))]
pub fn map_to(m: &mut [u8], s: Shape, id: u32, port: u32) -> Result<(), Refusal>
    requires { Works s m.old }
    ensures { ◌≡◌ {A = Reply × List ℕ} (plain_reply result, m.new) (acted (settings_of s) m.old (map_to id port)) }
{
    judge_map(m, s, id, port)?;
    parts::set_mapped(m, s, id as usize, port as u8);
    Ok(())
}
