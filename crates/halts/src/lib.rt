// Halt a port that lies (paper 02, Q-9): the mark that a refused arrival leaves at its port, whom a halt turns away, clear and report; and
// rule (i), which marks a state may have.
#![tactic(auto)]

ghost use Rattle.std.specs.Prelude.{◌≡◌, List, ℕ, ◌<◌};
ghost use Rattle.ledger.specs.Ledger.{mark_of};
ghost use Rattle.ledger.specs.Halt.{halts, is_mark, marks, held_up};
ghost use Rattle.ledger.specs.Answers.{number_of, plain_reply, report_reply};
ghost use Rattle.ledger.specs.Calls.{Reply, clear, report};
ghost use Rattle.layout.specs.declared.Table.TheVariants.{Halted};
ghost use Rattle.layout.specs.Tables.{get};
ghost use Rattle.layout.specs.Shapes.{settings_of};
ghost use Rattle.layout.specs.Picture.{ledger_in};
ghost use Rattle.memory.specs.Writes.{mark_mem};
ghost use Rattle.memory.specs.Judged.{Works};
ghost use Rattle.memory.specs.Memory.{acted};
ghost use Rattle.parts.specs.Parts.{InPorts};
ghost use Rattle.ranges.specs.Ranges.{Held};
ghost use Rattle.halts.specs.Marks.{marks_found};

use layout::{Shape, Table};
use ledger::Refusal;

// ---- the mark

// Whether a refusal of this number halts the port: a checksum that differs, another port's source, a beat that doesn't fit.
// kept: a number and no Refusal, since the marks that rule (i) allows (`halts`) are bytes of the memory, and 18 is no call's refusal.
#[tactic(auto, unfolding(ledger::specs::Halt::halts))]
fn halting(n: u8) -> bool
    ensures { result ≡ halts n }
{
    matches!(n, 7 | 8 | 18)
}

// Whether a refusal of this number marks port p: the first that halts does.
#[tactic(auto, unfolding(ledger::specs::Halt::marks))]
fn marking(m: &[u8], s: Shape, p: usize, n: u8) -> bool
    requires { Held s m.now }
    ensures { result ≡ marks (settings_of s) p (get (settings_of s) m.now Halted p) n }
{
    p < s.ports && layout::get::<u8>(m, s, Table::Halted, p) == 0 && halting(n)
}

// The port at which an arrival was refused, marked for it if the refusal halts and no mark stands.
#[tactic(auto, using(ledger::proofs::Halt::marks_port), unfolding(memory::specs::Writes::mark_mem))]
pub fn halt(m: &mut [u8], s: Shape, port: u32, no: Refusal)
    requires { Held s m.old }
    ensures { m.new ≡ mark_mem (settings_of s) port (number_of no) m.old }
{
    let p = port as usize;
    let n = no.number();
    if marking(m, s, p, n) {
        parts::set_mark(m, s, p, n);
    }
}

// Whether a halt turns away what arrives at port p for queue q: queue 0 goes on.
#[tactic(auto, unfolding(ledger::specs::Halt::held_up))]
pub fn held_up(m: &[u8], s: Shape, p: usize, q: usize) -> bool
    requires { InPorts s p m.now }
    ensures { result ≡ held_up q (mark_of (ledger_in (settings_of s) m.now) p) }
{
    q != 0 && 0 < parts::mark(m, s, p)
}

// ---- the calls

// Clear: the mark is lifted.
#[tactic(auto, using(crate::proofs::Laws::clear_no_port, crate::proofs::Laws::clears))]
pub fn clear(m: &mut [u8], s: Shape, port: u32) -> Result<(), Refusal>
    requires { Works s m.old }
    ensures { ◌≡◌ {A = Reply × List ℕ} (plain_reply result, m.new) (acted (settings_of s) m.old (clear port)) }
{
    let p = port as usize;
    if s.ports <= p {
        return Err(Refusal::NoPort);
    }
    parts::set_mark(m, s, p, 0);
    Ok(())
}

// Report: the mark is read.
#[tactic(auto, using(crate::proofs::Laws::report_no_port, crate::proofs::Laws::reports))]
pub fn report(m: &[u8], s: Shape, port: u32) -> Result<u8, Refusal>
    requires { Works s m.now }
    ensures { report_reply result ≡ (acted (settings_of s) m.now (report port)).0 }
{
    let p = port as usize;
    if s.ports <= p {
        return Err(Refusal::NoPort);
    }
    Ok(parts::mark(m, s, p))
}

// ---- rule (i)

// Whether the mark of port p is one.
#[tactic(auto, unfolding(ledger::specs::Halt::is_mark))]
fn right_mark(m: &[u8], s: Shape, p: usize) -> bool
    requires { Held s m.now × (p < s.ports) }
    ensures { result ≡ is_mark (get (settings_of s) m.now Halted p) }
{
    let n = layout::get::<u8>(m, s, Table::Halted, p);
    n == 0 || halting(n)
}

// The first port whose mark is none.
pub fn wrong_mark(m: &[u8], s: Shape) -> Option<usize>
    requires { Held s m.now }
    ensures { result ≡ marks_found (settings_of s) m.now }
{
    (0..s.ports).find(|p| !right_mark(m, s, *p))
}
