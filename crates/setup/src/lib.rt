// Setup: the settings are tested, and a new state is written.
#![tactic(auto)]

ghost use Rattle.std.specs.Prelude.{◌≡◌, List, ℕ};
ghost use Rattle.ledger.specs.Calls.{Reply};
ghost use Rattle.ledger.specs.Answers.{plain_reply};
ghost use Rattle.memory.specs.Memory.{M};
ghost use Rattle.setup.specs.Told.{call_of};

use ledger::Refusal;
use settings::Settings;

// A new switch state in lent memory, or a refusal with no byte changed.
#[tactic(auto, using(std::proofs::lemmas::Bool::Decides::nat_tests, ledger::proofs::Rows::roomy), unfolding(memory::specs::Memory::M))]
pub fn setup(m: &mut [u8], told: Settings) -> Result<(), Refusal>
    ensures { ◌≡◌ {A = Reply × List ℕ} (plain_reply result, m.new) (M (call_of told) m.old) }
{
    if !settings::in_rows(told) {
        return Err(Refusal::BadSetting);
    }
    let s = layout::shape_of(told);
    if m.len() < layout::size_of(s) {
        return Err(Refusal::ShortMemory);
    }
    fills::put_state(m, s);
    Ok(())
}
