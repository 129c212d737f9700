// The settings, as setup is told them and as a memory holds them, and the one test of their rows.
#![tactic(auto)]

ghost use Rattle.std.specs.Prelude.{◌≡◌, ◌<◌};
ghost use Rattle.ledger.specs.Settings.{settings, is_beat, ports_in, queues_in, packets_in, in_row, in_rows};
ghost use Rattle.settings.specs.Told.{told_settings, one_out};

// In their rows or not.
// kept: numbers, edition and packets too, since setup is told any numbers and refuses those out of their rows (`in_rows`).
#[derive(Clone, Copy)]
pub struct Settings {
    pub ports: u32,
    pub queues: u32,
    pub nodes: u32,
    pub beat: u32,
    pub slots: u32,
    pub credit: u32,
    pub edition: u32,
    pub packets: u32,
}

// Four ports of 24 queues, of the ten-byte header.
pub fn ten_bytes(nodes: u32, beat: u32, slots: u32, credit: u32) -> Settings
    ensures { told_settings result ≡ settings nodes beat slots credit }
{
    Settings {
        ports: 4,
        queues: 24,
        nodes,
        beat,
        slots,
        credit,
        edition: 0,
        packets: 0,
    }
}

// The numbers from 64 to 512 that have a single one among their bits.
#[tactic(auto, using(ledger::proofs::Rows::beat_is, ledger::proofs::Rows::beat_values))]
fn is_beat(b: u32) -> bool
    ensures { result ≡ is_beat b }
{
    matches!(b, 64 | 128 | 256 | 512)
}

// Whether an edition has switches of so many ports.
// kept: two functions, since the rows of the papers' table are two definitions (`ports_in`, `queues_in`).
#[tactic(auto, unfolding(ledger::specs::Settings::ports_in))]
pub fn ports_in(edition: u32, ports: u32) -> bool
    ensures { result ≡ ports_in edition ports }
{
    if edition == 0 {
        return ports == 4;
    }
    (2..=32).contains(&ports)
}

// And of so many queues.
#[tactic(auto, unfolding(ledger::specs::Settings::queues_in))]
pub fn queues_in(edition: u32, queues: u32) -> bool
    ensures { result ≡ queues_in edition queues }
{
    if edition == 0 {
        return queues == 24;
    }
    (2..=64).contains(&queues)
}

// And those that keep packets, or that don't.
#[tactic(auto, unfolding(ledger::specs::Settings::packets_in))]
fn packets_in(edition: u32, packets: u32) -> bool
    ensures { result ≡ packets_in edition packets }
{
    if edition == 0 {
        return packets <= 1;
    }
    packets == 0
}

// Whether setting i, in the order in which a memory has them, is in its row of the papers' table.
fn in_row(told: Settings, i: usize) -> bool
    requires { i < 8 }
    ensures { result ≡ in_row (told_settings told) i }
{
    match i {
        0 => ports_in(told.edition, told.ports),
        1 => queues_in(told.edition, told.queues),
        2 => (1..=2048).contains(&told.nodes),
        3 => is_beat(told.beat),
        4 => (1..=8).contains(&told.slots),
        5 => told.credit <= 65535,
        6 => told.edition <= 1,
        _ => packets_in(told.edition, told.packets),
    }
}

// The first setting that isn't in its row, where one isn't.
pub fn first_out(told: Settings) -> Option<usize>
    ensures { result ≡ one_out (told_settings told) }
{
    (0..8).find(|i| !in_row(told, *i))
}

// Whether each is.
#[tactic(auto, using(ledger::proofs::Rows::rows_out))]
pub fn in_rows(told: Settings) -> bool
    ensures { result ≡ in_rows (told_settings told) }
{
    first_out(told).is_none()
}
