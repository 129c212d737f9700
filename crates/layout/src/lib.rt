// The state in lent bytes: a row of tables. A Shape holds what the settings fix, so that a call computes it once.
#![tactic(auto)]

mod shape;

ghost use Rattle.std.specs.Prelude.{◌≡◌, ◌+◌, ◌-◌, ◌*◌, ◌^◌};
ghost use Rattle.ledger.specs.Settings.{row, size};
ghost use Rattle.ledger.specs.Header.{form, least_length};
ghost use Rattle.ledger.specs.Sound.{Roomy};
ghost use Rattle.settings.specs.Told.{told_settings};
ghost use Rattle.layout.specs.Tables.{start_of, get, put};
ghost use Rattle.layout.specs.Shapes.{settings_of};
ghost use Rattle.layout.specs.Access.{Reads};

use numbers::Number;
use settings::Settings;
pub use shape::Shape;

#[derive(Clone, Copy)]
pub enum Table {
    Setting,
    Mapped,
    Last,
    Halted,
    Arrival,
    Outward,
    Buckets,
    Head,
    Tail,
    Count,
    Next,
    Length,
    Stamp,
    Queue,
    Dest,
    Poisoned,
    Transaction,
    Price,
}

// The least length of a packet: its header and two bytes more.
#[tactic(auto, using(ledger::proofs::Header::header_small), unfolding(ledger::specs::Header::least_length))]
fn least_of(told: Settings) -> usize
    requires { Roomy (told_settings told) }
    ensures { result ≡ least_length (form (told_settings told)) }
{
    let f = forms::form_of(told.edition, told.ports, told.queues);
    (f.size + 2) as usize
}

// How many destinations a header can name: as many as its field holds.
#[tactic(auto, using(crate::proofs::Shapes::one_shifted))]
fn dests_of(told: Settings) -> usize
    requires { Roomy (told_settings told) }
    ensures { result ≡ 2 ^ (form (told_settings told)).port_bits }
{
    let f = forms::form_of(told.edition, told.ports, told.queues);
    1usize << f.port
}

// The shape of a switch with these settings.
#[tactic(auto, using(crate::proofs::Shapes::few), unfolding(crate::specs::Tables::start_of, ledger::specs::Settings::row))]
pub fn shape_of(told: Settings) -> Shape
    requires { Roomy (told_settings told) }
    ensures { settings_of result ≡ told_settings told }
{
    let ports = told.ports as usize;
    let queues = told.queues as usize;
    let nodes = told.nodes as usize;
    let beat = told.beat as usize;
    let slots = told.slots as usize;
    let credit = told.credit as usize;
    let edition = told.edition as usize;
    let packets = told.packets as usize;
    let least = least_of(told);
    let dests = dests_of(told);
    let row = 2 + 2 * queues;
    let cells = ports * (queues - 1);
    let lists = ports * row;
    let all = ports * nodes;
    let arrival = 4112 + 2 * ports;
    let head = arrival + 4 * cells + 132 * ports;
    let next = head + 8 * lists;
    Shape {
        ports,
        queues,
        nodes,
        beat,
        slots,
        credit,
        edition,
        packets,
        row,
        cells,
        lists,
        all,
        arrival,
        head,
        next,
        least,
        dests,
    }
}

// Where a table starts.
#[tactic(auto, using(crate::proofs::Shapes::small), unfolding(crate::specs::Tables::start_of))]
pub fn start_of(s: Shape, t: Table) -> usize
    ensures { result ≡ start_of (settings_of s) t }
{
    match t {
        Table::Setting => 0,
        Table::Mapped => 16,
        Table::Last => 4112,
        Table::Halted => 4112 + s.ports,
        Table::Arrival => s.arrival,
        Table::Outward => s.arrival + 2 * s.cells,
        Table::Buckets => s.arrival + 4 * s.cells,
        Table::Head => s.head,
        Table::Tail => s.head + 2 * s.lists,
        Table::Count => s.head + 4 * s.lists,
        Table::Next => s.next,
        Table::Length => s.next + 2 * s.all,
        Table::Stamp => s.next + 4 * s.all,
        Table::Queue => s.next + 8 * s.all,
        Table::Dest => s.next + 9 * s.all,
        Table::Poisoned => s.next + 10 * s.all,
        Table::Transaction => s.next + 11 * s.all,
        Table::Price => s.next + 12 * s.all,
    }
}

// The bytes of a state: where the last table ends.
#[tactic(auto, using(crate::proofs::Shapes::small), unfolding(crate::specs::Tables::start_of, ledger::specs::Settings::size))]
pub fn size_of(s: Shape) -> usize
    ensures { result ≡ size (settings_of s) }
{
    s.next + 13 * s.all
}

// Element i of a table, as a number of the table's width.
pub fn get<N: Number>(m: &[u8], s: Shape, t: Table, i: usize) -> N
    requires { Reads N.BYTES s t i m.now }
    ensures { N.value result ≡ get (settings_of s) m.now t i }
{
    N::read(m, start_of(s, t) + i * N::BYTES)
}

// v stored as element i of a table.
pub fn put<N: Number>(m: &mut [u8], s: Shape, t: Table, i: usize, v: N)
    requires { Reads N.BYTES s t i m.old }
    ensures { m.new ≡ put (settings_of s) t i (N.value v) m.old }
{
    v.write(m, start_of(s, t) + i * N::BYTES);
}
