// A writer by way of a buffer.
#![tactic(auto)]

ghost use Rattle.std.specs.Prelude.{◌≡◌, cond, [], ◌∷◌, ◌≤◌, ◌<◌, nat_lt, length, OnOk, OnErr};
ghost use Rattle.std.specs.Io.KnownBytes.{Appends};
ghost use Rattle.output.specs.Buffer.{decimal, queued};

use std::io;
use std::io::Write;

// The first bytes of the buffer wait to be written.
// kept: no heap, on which std's BufWriter has its bytes.
#[derive(Drop)]
pub struct Output<W> {
    writer: W,
    bytes: [u8; 4096],
    waiting: usize,
    ghost within: { waiting ≤ 4096 },
}

impl<W: Write> Output<W> {
    ghost use Rattle.output.specs.Outputs.{waiting_bytes};

    // Nothing waits yet.
    pub fn new(writer: W) -> Output<W>
        ensures writer { result.writer ≡ writer }
        ensures none { waiting_bytes result ≡ [] }
    {
        Output {
            writer,
            bytes: [0; 4096],
            waiting: 0,
        }
    }

    // Writes what waits; after a write that fails all of it waits on, what the writer took of it too. The callers here go on then: no answer
    // depends on it.
    pub fn flush_or_keep(&mut self) -> io::Result<()>
        ensures writes { OnOk result (Appends (W.contents self.old.writer) (W.contents self.new.writer) (waiting_bytes self.old)) }
        ensures none { OnOk result (waiting_bytes self.new ≡ []) }
        ensures kept { OnErr result (waiting_bytes self.new ≡ waiting_bytes self.old) }
    {
        self.writer.write_all(&self.bytes[..self.waiting])?;
        self.waiting = 0;
        Ok(())
    }

    // Writes what waits, and nothing waits then: what a writer that fails did not take is lost.
    pub fn flush(&mut self) -> io::Result<()>
        ensures writes { OnOk result (Appends (W.contents self.old.writer) (W.contents self.new.writer) (waiting_bytes self.old)) }
        ensures none { waiting_bytes self.new ≡ [] }
    {
        let flushed = self.flush_or_keep();
        self.waiting = 0;
        flushed
    }

    // Room for a byte more: a full buffer is written, and is empty then, whatever came of it.
    fn make_room(&mut self)
        ensures room { self.new.waiting < 4096 }
        ensures waits { waiting_bytes self.new ≡ cond (nat_lt (length (waiting_bytes self.old)) 4096) (waiting_bytes self.old) [] }
    {
        if self.waiting == 4096 {
            let _ = self.flush_or_keep();
            self.waiting = 0;
        }
    }

    pub fn byte(&mut self, b: u8)
        ensures { waiting_bytes self.new ≡ queued (waiting_bytes self.old) (b ∷ []) }
    {
        self.make_room();
        self.bytes[self.waiting] = b;
        self.waiting += 1;
    }

    pub fn text(&mut self, s: &[u8])
        ensures { waiting_bytes self.new ≡ queued (waiting_bytes self.old) s.now }
    {
        for b in s {
            self.byte(*b);
        }
    }

    #[tactic(auto, using(crate::proofs::Decimals::all_left))]
    pub fn number(&mut self, n: u64)
        ensures { waiting_bytes self.new ≡ queued (waiting_bytes self.old) (decimal n) }
    {
        // kept: the clause knows no failure, and write! promises the digits only where it doesn't fail.
        let count = n.max(1).ilog10() as usize + 1;
        let mut digits = [0; 20];
        let mut rest = n;
        for at in (0..count).rev() {
            digits[at] = b'0' + (rest % 10) as u8;
            rest /= 10;
        }
        self.text(&digits[..count]);
    }
}

#[cfg(test)]
mod tests {
    use super::Output;

    #[test]
    fn a_flush_that_fails_leaves_what_waits_or_nothing(rt: HostRuntime) {
        let mut room = [0; 2];
        let mut out = Output::new(&mut room[..]);
        out.text(b"abc");
        assert!(rt; out.flush_or_keep().is_err());
        assert!(rt; out.flush_or_keep().is_err());
        assert!(rt; out.flush().is_err());
        assert!(rt; out.flush().is_ok());
    }
}
