// Is a memory of any bytes a switch state? For a call, numbers and marks, then all else by one walk of the lists; for whoever asks what is wrong, that walk
// first, and where it doesn't tell, the rules in the paper's order, a walk each, up to the first that is broken.
#![tactic(auto)]

ghost use Rattle.std.specs.Prelude.{◌≡◌, ◌*◌, ◌≤◌, IfOk};
ghost use Rattle.layout.specs.Shapes.{settings_of};
ghost use Rattle.memory.specs.Judged.{Works};
ghost use Rattle.ranges.specs.Opening.{Open};
ghost use Rattle.once.specs.Once.{once_found};
ghost use Rattle.once.specs.Walks.{Blank};
ghost use Rattle.whole.specs.Whole.{Says, Tells};
ghost use Rattle.sound.specs.Sound.{breaks, Clean, Tied, StuckAt, nodes_broken, open_broken, broken_in, tested_in};

use fits::NodeRule;
use layout::Shape;
use ledger::{Broken, Refusal, Rule};
use whole::Fault;

// Marks of nodes met (a port's mark is rule (i)'s) are cleared whole, so a switch of few nodes lends few: of 1,024 nodes, or of as many as
// a state may have. Sums likewise.

// Rule (c), with marks in so many bytes.
#[tactic(auto, using(crate::proofs::Lent::blank))]
fn once_among<const BYTES: usize>(m: &[u8], s: Shape) -> Option<usize>
    requires { Open m.now s × (s.all ≤ 8 * BYTES) × (BYTES ≤ 8192) }
    ensures { result ≡ once_found (settings_of s) m.now }
{
    let mut marks = [0u8; BYTES];
    once::once(m, s, &mut marks)
}

// Rule (c).
#[tactic(auto, using(crate::proofs::Lent::most))]
fn once_in(m: &[u8], s: Shape) -> Option<usize>
    requires { Open m.now s }
    ensures { result ≡ once_found (settings_of s) m.now }
{
    if s.all <= 1024 {
        once_among::<128>(m, s)
    } else {
        once_among::<8192>(m, s)
    }
}

// The rules of lists and of credits in one walk, with marks that are lent, and so many sums.
fn whole_with<const SUMS: usize>(m: &[u8], s: Shape, marks: &mut [u8]) -> Result<(), Fault>
    requires { Blank s m.now marks.old × (s.cells ≤ SUMS) × (SUMS ≤ 2016) }
    ensures { Tells (settings_of s) m.now result }
{
    let mut sums = [0u64; SUMS];
    whole::whole(m, s, marks, &mut sums[..s.cells])
}

// The same with marks in so many bytes.
#[tactic(auto, using(crate::proofs::Lent::blank, crate::proofs::Lent::most))]
fn whole_among<const BYTES: usize>(m: &[u8], s: Shape) -> Result<(), Fault>
    requires { Open m.now s × (s.all ≤ 8 * BYTES) × (BYTES ≤ 8192) }
    ensures { Tells (settings_of s) m.now result }
{
    let mut marks = [0u8; BYTES];
    if s.cells <= 92 {
        whole_with::<92>(m, s, &mut marks)
    } else {
        whole_with::<2016>(m, s, &mut marks)
    }
}

#[tactic(auto, using(crate::proofs::Lent::most))]
fn one_walk(m: &[u8], s: Shape) -> Result<(), Fault>
    requires { Open m.now s }
    ensures { Tells (settings_of s) m.now result }
{
    if s.all <= 1024 {
        whole_among::<128>(m, s)
    } else {
        whole_among::<8192>(m, s)
    }
}

// Whether rules (b) to (i) are kept: of (b) the numbers first, and the prefetch lists where the lists are walked; and each port's mark.
#[tactic(auto, using(ranges::proofs::Opening::open_held))]
fn whole_in(m: &[u8], s: Shape) -> bool
    requires { Open m.now s }
    ensures { Says (Clean (settings_of s) m.now) result }
{
    ranges::number_outside(m, s).is_none()
        && halts::wrong_mark(m, s).is_none()
        && one_walk(m, s).is_ok()
}

// Whether a memory is a switch state. Which rule it breaks isn't asked, so that one walk of the lists decides.
#[tactic(auto, using(crate::proofs::Means::testing))]
pub fn test(m: &[u8]) -> Result<Shape, Refusal>
    ensures told { result ≡ tested_in m.now }
    ensures works { IfOk result (λ s. Works s m.now) }
{
    match ranges::open(m) {
        Ok(s) if whole_in(m, s) => Ok(s),
        _ => Err(Refusal::NoState),
    }
}

// A rule is broken, and an item shows it.
fn breaks(rule: Rule, item: usize) -> Broken
    ensures { result ≡ breaks rule item }
{
    Broken { rule, item }
}

// Rules (d) to (f), each by a walk from the lists of the port at which the one walk stuck: what they find from there on is what they find.
#[tactic(auto, unfolding(crate::specs::Sound::nodes_broken))]
fn nodes_broken(m: &[u8], s: Shape, port: usize) -> Option<Broken>
    requires { Tied s m.now port }
    ensures { result ≡ nodes_broken (settings_of s) m.now }
{
    let from = port * s.row;
    if let Some(item) = fits::fits(m, s, NodeRule::OwnPort, from) {
        return Some(breaks(Rule::D, item));
    }
    if let Some(item) = fits::fits(m, s, NodeRule::OwnQueue, from) {
        return Some(breaks(Rule::E, item));
    }
    if let Some(item) = fits::fits(m, s, NodeRule::Record, from) {
        return Some(breaks(Rule::F, item));
    }
    // Never so: the walk was stuck.
    None
}

// Rules (b) to (f) in their order, where the one walk stuck at a port.
#[tactic(auto, using(ranges::proofs::Opening::open_held), unfolding(crate::specs::Sound::open_broken))]
fn stuck_broken(m: &[u8], s: Shape, port: usize) -> Option<Broken>
    requires { StuckAt s m.now port }
    ensures { result ≡ open_broken (settings_of s) m.now }
{
    if let Some(item) = ranges::ranges(m, s) {
        return Some(breaks(Rule::B, item));
    }
    if let Some(item) = once_in(m, s) {
        return Some(breaks(Rule::C, item));
    }
    nodes_broken(m, s, port)
}

// Rules (b) to (i). The one walk is asked first: it decides where none up to (f) is broken; then (i) is left.
#[tactic(auto, using(ranges::proofs::Opening::open_held))]
fn open_broken(m: &[u8], s: Shape) -> Option<Broken>
    requires { Open m.now s }
    ensures { result ≡ open_broken (settings_of s) m.now }
{
    if let Some(item) = ranges::number_outside(m, s) {
        return Some(breaks(Rule::B, item));
    }
    match one_walk(m, s) {
        Ok(()) => halts::wrong_mark(m, s).map(|item| breaks(Rule::I, item)),
        Err(Fault::Stuck(port)) => stuck_broken(m, s, port),
        Err(Fault::Due(item)) => Some(breaks(Rule::G, item)),
    }
}

// The first rule that is broken, and the first item that shows it.
#[tactic(auto, using(ranges::proofs::Opening::opened_fine, crate::proofs::Walks::opened_broken, crate::proofs::Walks::wrong_broken))]
pub fn first_broken(m: &[u8]) -> Option<Broken>
    ensures { result ≡ broken_in m.now }
{
    match ranges::open(m) {
        Ok(s) => open_broken(m, s),
        Err(item) => Some(breaks(Rule::A, item)),
    }
}
