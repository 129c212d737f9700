// Credit, on a memory that is a switch state: judged first, then a single number is written.
#![tactic(auto)]

ghost use Rattle.std.specs.Prelude.{◌≡◌, List, ℕ};
ghost use Rattle.ledger.specs.Answers.{plain_reply};
ghost use Rattle.ledger.specs.Calls.{Reply, credit};
ghost use Rattle.layout.specs.Shapes.{settings_of};
ghost use Rattle.layout.specs.Picture.{ledger_in};
ghost use Rattle.memory.specs.Judged.{Works, judgement_of, judged};
ghost use Rattle.memory.specs.Memory.{acted};

use layout::Shape;
use ledger::Refusal;

// The first refusal of a credit that applies. Amounts have 32 bits, so the sum is made in 64.
#[tactic(auto, using(memory::proofs::Judging::judging), unfolding(memory::specs::Judged::judged))]
pub fn judge_credit(m: &[u8], s: Shape, port: u32, queue: u32, amount: u32) -> Result<(), Refusal>
    requires { Works s m.now }
    ensures { judgement_of result ≡ judged (settings_of s) (ledger_in (settings_of s) m.now) (credit port queue amount) }
{
    let p = port as usize;
    let q = queue as usize;
    if s.ports <= p {
        return Err(Refusal::NoPort);
    }
    if s.queues <= q || q == 0 {
        return Err(Refusal::NoQueue);
    }
    let total = u64::from(parts::outward(m, s, p, q)) + u64::from(amount);
    if 65535 < total {
        return Err(Refusal::TooMuchCredit);
    }
    Ok(())
}

// The amount added to the outward credit of a port and a queue.
#[tactic(auto, using(crate::proofs::Laws::gone_on))]
pub fn credit(m: &mut [u8], s: Shape, port: u32, queue: u32, amount: u32) -> Result<(), Refusal>
    requires { Works s m.old }
    ensures { ◌≡◌ {A = Reply × List ℕ} (plain_reply result, m.new) (acted (settings_of s) m.old (credit port queue amount)) }
{
    judge_credit(m, s, port, queue, amount)?;
    let p = port as usize;
    let q = queue as usize;
    let held = parts::outward(m, s, p, q);
    parts::set_outward(m, s, p, q, held + amount as u16);
    Ok(())
}
