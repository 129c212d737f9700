// The run for C (include/ventorupo.h). It is a library by itself, which is put into the archive beside `capi`: here each act has one caller, so
// the compiler makes one loop of the run and what it calls.
#![tactic(auto)]

ghost use Rattle.std.specs.Prelude.{◌≡◌, List, ℕ};
ghost use Rattle.memory.specs.Runs.{run_on};
ghost use Rattle.runs.specs.Runs.{report_in};
ghost use Rattle.capi_run.specs.Told.{number_in, count_in, why_in, told_run};

use ledger::Refusal;
use runs::Ran;

// What a run did, in the rooms lent for it; a refusal writes neither.
fn put(ran: Result<Ran, Refusal>, count: &mut u64, why: &mut u32) -> u32
    ensures { (result ≡ number_in (report_in ran)) × (count.new ≡ count_in (report_in ran) count.old)
        × (why.new ≡ why_in (report_in ran) why.old) }
{
    match ran {
        Ok(ran) => {
            *count = ran.count as u64;
            *why = ran.why as u32;
            0
        }
        Err(no) => u32::from(no),
    }
}

#[unsafe(no_mangle)]
pub extern "C" fn vr_run(
    mem: &mut [u8],
    fields: &[u8],
    answers: &mut [u8],
    count: &mut u64,
    why: &mut u32,
) -> u32
    ensures { ◌≡◌ {A = ℕ × List ℕ × List ℕ × ℕ × ℕ} (result, mem.new, answers.new, count.new, why.new)
        (told_run count.old why.old (run_on mem.old fields.now answers.old)) }
{
    put(switch::run(mem, fields, answers), count, why)
}
