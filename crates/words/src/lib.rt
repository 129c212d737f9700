// Ready words kept from call to call, with no byte of state: a port's word is made when it is first asked for, and after an act that touches a
// queue of it one bit is made again.
#![tactic(auto)]

ghost use Rattle.std.specs.Prelude.{◌≡◌, ℕ, ◌+◌, ◌*◌, ◌/◌, ◌%◌, ◌^◌, List};
ghost use Rattle.ledger.specs.Ready.{bit, ready_word};
ghost use Rattle.layout.specs.declared.shape.Shape.{Shape};
ghost use Rattle.layout.specs.Shapes.{settings_of};
ghost use Rattle.layout.specs.Picture.{ledger_in};
ghost use Rattle.words.specs.Kept.{Kept, CanAsk, Stale, CanSet};

use layout::Shape;

// The word of each port, where it is made.
#[derive(Clone, Copy)]
pub struct Words {
    made: [Option<u64>; 32],
}

impl Words {
    // None is made at first.
    pub fn new() -> Words
        ensures { (s : Shape) (m : List ℕ) → Kept s m result }
    {
        Words { made: [None; 32] }
    }

    // The ready word of port p: made at first, as kept later.
    pub fn word_of(&mut self, m: &[u8], s: Shape, p: usize) -> u64
        requires { CanAsk s p m.now self.old }
        ensures value { result ≡ ready_word (settings_of s) (ledger_in (settings_of s) m.now) p }
        ensures kept { Kept s m.now self.new }
    {
        if let Some(word) = self.made[p] {
            return word;
        }
        let word = turns::ready_word(m, s, p);
        self.made[p] = Some(word);
        word
    }

    // The word of port p again, after an act that touched queue q of it, if it is made.
    pub fn renew(&mut self, m: &[u8], s: Shape, p: usize, q: usize)
        requires { Stale s p q m.now self.old }
        ensures { Kept s m.now self.new }
    {
        if let Some(word) = &mut self.made[p] {
            *word = with_bit(*word, q, turns::is_ready(m, s, p, q));
        }
    }
}

// A word with bit q made b.
fn with_bit(word: u64, q: usize, b: bool) -> u64
    requires { CanSet word q b }
    ensures { result + word / 2 ^ q % 2 * 2 ^ q ≡ word + bit b * 2 ^ q }
{
    word - ((word >> q) % 2 << q) + (u64::from(b) << q)
}
