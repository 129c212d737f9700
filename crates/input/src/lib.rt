// A reader by way of a buffer, in which a field of the right length always stands whole.
#![tactic(auto)]

ghost use Rattle.std.specs.Prelude.{◌≡◌, ◌+◌, ◌-◌, ◌≤◌, false, take, drop};
ghost use Rattle.std.specs.Io.KnownBytes.{Consumes};
ghost use Rattle.input.specs.Inputs.{unread, Kept, IsNoneLost};

use std::alloc::AllocError;
use std::io::Read;

// The longest field is an arrival: a tag, a length of two bytes, a port, and a header of ten.
const LONGEST: usize = 14;

// The bytes from place from up to place to of the buffer are read and not used yet; and whether the input ended.
// kept: no heap, on which std's BufReader has its bytes.
#[derive(Copy, Drop)]
pub struct Input<R> {
    pub reader: R,
    pub bytes: [u8; 4096],
    pub from: usize,
    pub to: usize,
    pub ended: bool,
    ghost within: { to ≤ 4096 },
}

// What is read and not used yet, again, before a clone of the reader.
impl<R: Clone> Clone for Input<R> {
    ghost is_clone = { λ i j. R.is_clone i.reader j.reader × (j.bytes ≡ i.bytes) × (j.from ≡ i.from) × (j.to ≡ i.to) × (j.ended ≡ i.ended) };

    ghost is_infallible = { λ i. R.is_infallible i.reader };

    fn clone(&self) -> Result<Input<R>, AllocError> {
        Ok(Input {
            reader: self.reader.clone()?,
            bytes: self.bytes,
            from: self.from,
            to: self.to,
            ended: self.ended,
        })
    }
}

impl<R: Read> Input<R> {
    // Nothing read yet.
    pub fn new(reader: R) -> Input<R>
        ensures reader { result.reader ≡ reader }
        ensures none { (result.from ≡ 0) × (result.to ≡ 0) × (result.ended ≡ false) }
    {
        Input {
            reader,
            bytes: [0; 4096],
            from: 0,
            to: 0,
            ended: false,
        }
    }

    // The bytes before place next are used.
    pub fn pass(&mut self, next: usize)
        requires { next ≤ self.old.to }
        ensures used { self.new.from ≡ next }
        ensures kept { (self.new.reader ≡ self.old.reader) × (self.new.bytes ≡ self.old.bytes) × (self.new.to ≡ self.old.to)
            × (self.new.ended ≡ self.old.ended) }
    {
        self.from = next;
    }

    // One read, past what is read: how many bytes came. None at the end, or by a read that failed.
    #[tactic(auto, using(crate::proofs::Laws::read_there))]
    fn read(&mut self) -> usize
        ensures more { self.new.to ≡ self.old.to + result }
        ensures kept { (self.new.from ≡ self.old.from) × (take self.old.to self.new.bytes ≡ take self.old.to self.old.bytes) }
        ensures read { Consumes (R.remaining self.old.reader) (R.remaining self.new.reader) (drop self.old.to (take self.new.to self.new.bytes)) }
    {
        let got = self.reader.read(&mut self.bytes[self.to..]).unwrap_or(0);
        self.to += got;
        got
    }

    // What is left, moved to the front.
    fn move_to_front(&mut self)
        ensures front { (self.new.from ≡ 0) × (self.new.to ≡ self.old.to - self.old.from)
            × (take self.new.to self.new.bytes ≡ unread self.old.bytes self.old.from self.old.to) }
        ensures kept { self.new.reader ≡ self.old.reader }
    {
        let from = self.from.min(self.to);
        self.bytes.copy_within(from..self.to, 0);
        self.to -= from;
        self.from = 0;
    }

    // A whole field stands at the front then, if the input has one. Nothing is left where place from is past place to.
    pub fn fill(&mut self)
        ensures from_le_to { self.new.from ≤ self.new.to }
        ensures kept { Kept self.old.bytes self.old.from self.old.to self.new.bytes self.new.from self.new.to }
        ensures read { IsNoneLost (unread self.old.bytes self.old.from self.old.to) (R.remaining self.old.reader)
            (unread self.new.bytes self.new.from self.new.to) (R.remaining self.new.reader) }
        ensures whole { self.new.ended ≡ false → LONGEST ≤ self.new.to - self.new.from }
    {
        if self.from <= self.to && (self.ended || LONGEST <= self.to - self.from) {
            return;
        }
        self.move_to_front();
        // kept: no index is counted: it ends when enough is read, or nothing comes.
        while !self.ended && self.to < LONGEST {
            self.ended = self.read() == 0;
        }
    }
}

#[cfg(test)]
mod tests {
    use super::Input;

    fn twice<T: Copy>(t: T) -> (T, T)
        ensures { (result.0 ≡ t) × (result.1 ≡ t) }
    {
        (t, t)
    }

    #[test]
    fn a_clone_has_what_is_left(rt: HostRuntime) {
        let mut input = Input::new(&b"abc"[..]);
        input.fill();
        let (one, other) = twice(input.clone().expect(&rt, "the reader is a slice"));
        assert_eq!(rt; one.bytes[one.from..one.to], b"abc"[..]);
        assert_eq!(rt; other.bytes[other.from..other.to], b"abc"[..]);
    }
}
