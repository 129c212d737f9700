// The text of a line, by way of the output's buffer.
ghost use Rattle.std.specs.Prelude.{◌≡◌};
ghost use Rattle.output.specs.Buffer.{queued};
ghost use Rattle.output.specs.Outputs.{waiting_bytes};
ghost use Rattle.bench.specs.Lines.{answer_text, line_text};

use orders::Said;
use output::Output;
use std::io::Write;

#[tactic(auto, unfolding(crate::specs::Lines::answer_text))]
fn answer<W: Write>(out: &mut Output<W>, said: Said)
    ensures { waiting_bytes out.new ≡ queued (waiting_bytes out.old) (answer_text said) }
{
    match said {
        Said::Done => out.byte(b'0'),
        Said::Node(id) => {
            out.text(b"0 ");
            out.number(u64::from(id));
        }
        Said::Idle => out.text(b"0 idle"),
        Said::No(r) => out.number(u64::from(r)),
        Said::Bad => out.text(b"bad"),
    }
}

// A line: its number, a space, and what the field's call said.
#[tactic(auto, using(output::proofs::Laws::queued_append), unfolding(crate::specs::Lines::line_text))]
pub fn line<W: Write>(out: &mut Output<W>, n: u64, said: Said)
    ensures { waiting_bytes out.new ≡ queued (waiting_bytes out.old) (line_text n said) }
{
    out.number(n);
    out.byte(b' ');
    answer(out, said);
    out.byte(b'\n');
}
