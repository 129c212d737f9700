// Rules (d), (e) and (f) of a switch state: what each asks of a node, whatever the lists are; and on memory whose lists hang together, the
// first node that fails one of them.
#![tactic(auto)]

ghost use Rattle.std.specs.Prelude.{◌≡◌, ◌-◌, ◌^◌, ◌≤◌, ◌<◌, eqb};
ghost use Rattle.ledger.specs.Settings.{Settings};
ghost use Rattle.ledger.specs.Header.{price as priceOf};
ghost use Rattle.layout.specs.Tables.{lists};
ghost use Rattle.layout.specs.Shapes.{settings_of};
ghost use Rattle.layout.specs.Picture.{packet_at};
ghost use Rattle.fits.specs.Fits.{spared, queue_at, range_test, fields_test, rule_test, list_found, fits_from};
ghost use Rattle.fits.specs.Walk.{RecordOf, NoteOf, Spoken, Walkable, ListOf};

use layout::{Shape, Table};
use ledger::EntryId;

// Which of the three rules is tested.
// kept: an enum, by which the definitions and theorems go (`rule_test`, `fits_means`); a trait's impls would each name its variant again.
#[derive(Clone, Copy)]
pub enum NodeRule {
    OwnPort,
    OwnQueue,
    Record,
}

// (e): a node in an egress or a prefetch list has the list's queue.
pub fn own_queue(queues: usize, column: usize, queue: usize) -> bool
    requires { 2 ≤ column }
    ensures { (S : Settings) → S.queues ≡ queues → result ≡ eqb queue (queue_at S column) }
{
    let place = column - 2;
    let own = if place < queues {
        place
    } else {
        place - queues
    };
    queue == own
}

// What the memory has of a node's record, by its element, of the fields that can be out of range.
#[derive(Clone, Copy)]
pub struct Note {
    pub len: u16,
    pub queue: u8,
    pub dest: u8,
    pub poisoned: u8,
    pub price: u8,
}

impl Note {
    pub fn read(m: &[u8], s: Shape, at: usize) -> Note
        requires { RecordOf s at m.now }
        ensures { NoteOf (settings_of s) m.now at result }
    {
        Note {
            len: layout::get(m, s, Table::Length, at),
            queue: layout::get(m, s, Table::Queue, at),
            dest: layout::get(m, s, Table::Dest, at),
            poisoned: layout::get(m, s, Table::Poisoned, at),
            price: layout::get(m, s, Table::Price, at),
        }
    }

    // (f), of what can be out of range in the bytes that hold it.
    #[tactic(auto, unfolding(crate::specs::Fits::range_test))]
    fn in_range(self, s: Shape) -> bool
        ensures { result ≡ range_test (settings_of s) self.len self.queue self.dest self.poisoned }
    {
        s.least <= usize::from(self.len)
            && self.len < 8192
            && usize::from(self.queue) < s.queues
            && usize::from(self.dest) < s.dests
            && self.poisoned < 2
    }

    // (f): whether the price is that of the queue and the length, by multiplying, which costs less than to divide: so many beats hold the
    // packet, and no fewer do.
    #[tactic(auto, using(ledger::proofs::Header::price_free, crate::proofs::Prices::too_few, crate::proofs::Prices::enough))]
    fn fair(self, beat: usize) -> bool
        requires { (1 ≤ beat) × (beat ≤ 512) × (self.len < 2 ^ 13) }
        ensures { result ≡ eqb self.price (priceOf beat self.queue self.len) }
    {
        if self.queue == 0 {
            return self.price == 0;
        }
        let len = usize::from(self.len);
        let held = usize::from(self.price) * beat;
        len <= held && held < len + beat
    }

    // (f): every field is in range, and the price is that of the queue and the length.
    #[tactic(auto, using(crate::proofs::Walk::range_len), unfolding(crate::specs::Fits::fields_test))]
    pub fn proper(self, s: Shape) -> bool
        ensures { result ≡ fields_test (settings_of s) self.len self.queue self.dest self.poisoned self.price }
    {
        self.in_range(s) && self.fair(s.beat)
    }
}

impl NodeRule {
    // Whether the rule says nothing of a port's list, by the list's column.
    fn spares(self, column: usize) -> bool
        ensures { result ≡ spared self column }
    {
        match self {
            NodeRule::OwnPort => 2 <= column,
            NodeRule::OwnQueue => column < 2,
            NodeRule::Record => column == 0,
        }
    }

    // The rule's test of one node in a list that it speaks of.
    #[tactic(auto, using(memory::proofs::Chains::slot_lt, crate::proofs::Walk::note_tests), unfolding(crate::specs::Fits::rule_test, layout::specs::Picture::packet_at))]
    fn holds(self, m: &[u8], s: Shape, port: usize, column: usize, x: EntryId) -> bool
        requires { Spoken self column s x.0 m.now }
        ensures { result ≡ rule_test self (settings_of s) port column (packet_at (settings_of s) m.now x.0) }
    {
        match self {
            NodeRule::OwnPort => usize::from(x.port()) == port,
            NodeRule::OwnQueue => {
                let queue = layout::get::<u8>(m, s, Table::Queue, geometry::slot_of(s, x));
                own_queue(s.queues, column, usize::from(queue))
            }
            NodeRule::Record => Note::read(m, s, geometry::slot_of(s, x)).proper(s),
        }
    }
}

// The first node of a list that fails.
#[tactic(auto, using(crate::proofs::Walk::spared_whole))]
fn list_fits(m: &[u8], s: Shape, rule: NodeRule, l: usize) -> Option<usize>
    requires { ListOf s l m.now }
    ensures { result ≡ list_found rule (settings_of s) m.now l }
{
    let port = l / s.row;
    let column = l % s.row;
    if rule.spares(column) {
        return None;
    }
    let count = layout::get::<u32>(m, s, Table::Count, l);
    let mut x = layout::get::<u16>(m, s, Table::Head, l);
    for _ in 0..count {
        let id = EntryId(x);
        if !rule.holds(m, s, port, column, id) {
            return Some(usize::from(x));
        }
        x = layout::get(m, s, Table::Next, geometry::slot_of(s, id));
    }
    None
}

// The first node that fails, lists in their order from this one on, each from its head.
pub fn fits(m: &[u8], s: Shape, rule: NodeRule, from: usize) -> Option<usize>
    requires { Walkable s m.now }
    ensures { result ≡ fits_from rule (settings_of s) m.now from (lists (settings_of s) - from) }
{
    for l in from..s.lists {
        if let Some(x) = list_fits(m, s, rule, l) {
            return Some(x);
        }
    }
    None
}
