// Prints where each table starts and how many bytes a state takes, for seven node counts, one to a line.
#![tactic(auto)]

ghost use Rattle.std.specs.Prelude.{◌≤◌};

use layout::Table;
use settings::Settings;
use std::io;

// The tables, in their order.
const TABLES: [Table; 18] = [
    Table::Setting,
    Table::Mapped,
    Table::Last,
    Table::Halted,
    Table::Arrival,
    Table::Outward,
    Table::Buckets,
    Table::Head,
    Table::Tail,
    Table::Count,
    Table::Next,
    Table::Length,
    Table::Stamp,
    Table::Queue,
    Table::Dest,
    Table::Poisoned,
    Table::Transaction,
    Table::Price,
];

fn line(rt: &impl Print, nodes: u32) -> io::Result<()>
    requires { (1 ≤ nodes) × (nodes ≤ 2048) }
{
    let s = layout::shape_of(Settings {
        ports: 4,
        queues: 24,
        nodes,
        beat: 64,
        slots: 1,
        credit: 0,
        edition: 0,
        packets: 0,
    });
    print!(rt; "{nodes}")?;
    for t in TABLES {
        print!(rt; " {}", layout::start_of(s, t))?;
    }
    println!(rt; " {}", layout::size_of(s))
}

fn main(rt: HostRuntime) -> io::Result<()> {
    for nodes in [1, 2, 16, 255, 256, 257, 2048] {
        line(&rt, nodes)?;
    }
    Ok(())
}
