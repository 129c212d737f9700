// Rules (a) and (b) of a switch state, on any bytes: the settings are in their rows and the memory holds a state of them; last served queues, map
// entries and prefetch lists are in range.
#![tactic(auto)]

ghost use Rattle.std.specs.Prelude.{◌≡◌, ◌*◌, ◌<◌, ◌≤◌, length, ltb};
ghost use Rattle.ledger.specs.Settings.{ids};
ghost use Rattle.settings.specs.Told.{told_settings};
ghost use Rattle.layout.specs.declared.Table.TheVariants.{Mapped};
ghost use Rattle.layout.specs.Tables.{get};
ghost use Rattle.layout.specs.Shapes.{settings_of};
ghost use Rattle.layout.specs.Access.{Reads};
ghost use Rattle.layout.specs.Picture.{settings_in};
ghost use Rattle.ranges.specs.First.{first};
ghost use Rattle.ranges.specs.Opening.{opened};
ghost use Rattle.ranges.specs.Ranges.{low, highest, fits_at, prefetch_at, few_at, ranges_found, Held, Item, Sought};

use layout::{Shape, Table};
use numbers::Number;
use settings::Settings;

// The settings as they stand in a memory, in their rows or not.
#[tactic(auto, unfolding(layout::specs::Picture::settings_in))]
fn read(m: &[u8]) -> Settings
    requires { 16 ≤ length m.now }
    ensures { told_settings result ≡ settings_in m.now }
{
    Settings {
        ports: u32::from(u16::read(m, 0)),
        queues: u32::from(u16::read(m, 2)),
        nodes: u32::from(u16::read(m, 4)),
        beat: u32::from(u16::read(m, 6)),
        slots: u32::from(u16::read(m, 8)),
        credit: u32::from(u16::read(m, 10)),
        edition: u32::from(u16::read(m, 12)),
        packets: u32::from(u16::read(m, 14)),
    }
}

// Rule (a): the shape of the state, where the rule holds; else the item that shows that it doesn't.
pub fn open(m: &[u8]) -> Result<Shape, usize>
    ensures { result ≡ opened m.now }
{
    if m.len() < 16 {
        return Err(8);
    }
    let told = read(m);
    if let Some(out) = settings::first_out(told) {
        return Err(out);
    }
    let s = layout::shape_of(told);
    if m.len() < layout::size_of(s) {
        return Err(8);
    }
    Ok(s)
}

// The number of prefetch list j, which counts those lists alone, port by port and queue by queue.
#[tactic(auto, unfolding(crate::specs::Ranges::prefetch_at))]
fn prefetch_list(s: Shape, j: usize) -> usize
    requires { j < s.ports * s.queues }
    ensures { result ≡ prefetch_at (settings_of s) j }
{
    geometry::prefetch_list(s, j / s.queues, j % s.queues)
}

// How many items are numbers: the ports' last served queues, and the map's entries.
fn number_items(s: Shape) -> usize
    ensures { result ≡ low (settings_of s) }
{
    s.ports + 4096
}

// Whether element i of a table of one byte each is below a bound.
fn below(m: &[u8], s: Shape, t: Table, i: usize, bound: usize) -> bool
    requires { Reads 1 s t i m.now }
    ensures { result ≡ ltb (get (settings_of s) m.now t i) bound }
{
    usize::from(layout::get::<u8>(m, s, t, i)) < bound
}

// Whether item i, a number, is in range.
fn number_in_range(m: &[u8], s: Shape, i: usize) -> bool
    requires { Held s m.now × (i < low (settings_of s)) }
    ensures { result ≡ fits_at (settings_of s) m.now i }
{
    if i < s.ports {
        return below(m, s, Table::Last, i, s.queues);
    }
    below(m, s, Table::Mapped, i - s.ports, s.ports)
}

// Whether item i is in range.
fn in_range(m: &[u8], s: Shape, i: usize) -> bool
    requires { Item s m.now i }
    ensures { result ≡ fits_at (settings_of s) m.now i }
{
    let n = number_items(s);
    if i < n {
        return number_in_range(m, s, i);
    }
    let count = layout::get::<u32>(m, s, Table::Count, prefetch_list(s, i - n)) as usize;
    count <= s.slots
}

// (b): whether a list of a port's column may have so many nodes. A prefetch list has no more than there are slots.
#[tactic(auto, unfolding(crate::specs::Ranges::few_at))]
pub fn few_enough(s: Shape, column: usize, count: u32) -> bool
    ensures { result ≡ few_at (settings_of s) column count }
{
    column < 2 + s.queues || count as usize <= s.slots
}

// The first of the first n items that is out of range, where those before `from` are known to be in range: the last served queues and the map come
// first, so they can be tested by themselves.
fn first_outside(m: &[u8], s: Shape, from: usize, n: usize) -> Option<usize>
    requires { Sought s m.now from n }
    ensures { result ≡ first (fits_at (settings_of s) m.now) n }
{
    (from..n).find(|i| !in_range(m, s, *i))
}

// The highest of the map's entries: a comparison each, and nothing to decide in between, so that a compiler takes many in one step.
fn highest_entry(m: &[u8], s: Shape) -> u8
    requires { Held s m.now }
    ensures { result ≡ highest (get (settings_of s) m.now Mapped) ids }
{
    let mut top: u8 = 0;
    for i in 0..4096 {
        top = top.max(layout::get::<u8>(m, s, Table::Mapped, i));
    }
    top
}

// The first number that is out of range. The map is mostly right, and then the last served queues decide.
pub fn number_outside(m: &[u8], s: Shape) -> Option<usize>
    requires { Held s m.now }
    ensures { result ≡ first (fits_at (settings_of s) m.now) (low (settings_of s)) }
{
    if usize::from(highest_entry(m, s)) < s.ports {
        return first_outside(m, s, 0, s.ports);
    }
    first_outside(m, s, 0, number_items(s))
}

// Rule (b): the first item that is out of range. The numbers are asked first, since the map is tested in wide steps.
pub fn ranges(m: &[u8], s: Shape) -> Option<usize>
    requires { Held s m.now }
    ensures { result ≡ ranges_found (settings_of s) m.now }
{
    if let Some(i) = number_outside(m, s) {
        return Some(i);
    }
    let from = number_items(s);
    first_outside(m, s, from, from + s.ports * s.queues)
}
