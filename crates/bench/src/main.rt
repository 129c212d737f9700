// The bench: reads tagged fields from standard input, carries each out on a memory of its own, and writes a line for each.
#![tactic(auto)]

mod lines;

ghost use Rattle.std.specs.Prelude.{◌≤◌};
ghost use Rattle.output.specs.Outputs.{waiting_bytes};
ghost use Rattle.bench.specs.Steps.{Stepped};

use fields::Read;
use input::Input;
use orders::Said;
use output::Output;
use std::io;
use std::io::Write;

// The field at the front of the input: carried out, and answered by line n; and whether the run goes on. The end and a bad field end it.
#[tactic(auto, using(fields::proofs::Orders::header_within, fields::proofs::Orders::next_larger))]
fn step<R: io::Read, W: Write>(
    m: &mut [u8; 65536],
    input: &mut Input<R>,
    out: &mut Output<W>,
    n: u64,
) -> bool
    ensures from_le_to { input.new.from ≤ input.new.to }
    ensures stepped { Stepped n m.old input.old (waiting_bytes out.old) result m.new input.new (waiting_bytes out.new) }
{
    input.fill();
    let part = &input.bytes[..input.to];
    match fields::order_at(part, input.from) {
        Read::Call { order, next } => {
            let header = orders::header(part, order);
            let said = orders::carry_out(m, order, header);
            lines::line(out, n, said);
            input.pass(next);
            true
        }
        Read::Bad => {
            lines::line(out, n, Said::Bad);
            false
        }
        Read::End => false,
    }
}

// The whole run. Nothing says that the input ends, so the loop counts its fields up to a number that no run reaches.
fn run<R: io::Read, W: Write>(m: &mut [u8; 65536], input: &mut Input<R>, out: &mut Output<W>) {
    for n in 1..=u64::MAX {
        if !step(m, input, out, n) {
            break;
        }
    }
    let _ = out.flush_or_keep();
}

// The memory is enough for 1,133 nodes a port; a setup of more is refused 1.
fn main(rt: HostRuntime) {
    let mut memory = [0u8; 65536];
    let mut input = Input::new(rt.stdin());
    let mut out = Output::new(rt.stdout());
    run(&mut memory, &mut input, &mut out);
}
