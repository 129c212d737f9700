// What is recorded for nodes, read and written.
#![tactic(auto)]

ghost use Rattle.std.specs.Prelude.{◌≡◌};
ghost use Rattle.ledger.specs.Answers.{sent_of};
ghost use Rattle.layout.specs.Tables.{put};
ghost use Rattle.layout.specs.Shapes.{settings_of};
ghost use Rattle.layout.specs.Picture.{packet_at};
ghost use Rattle.memory.specs.Writes.{record_mem};
ghost use Rattle.records.specs.Records.{InRecords};

use layout::{Shape, Table};
use ledger::{EntryId, Sent};

#[tactic(auto, using(memory::proofs::Chains::slot_lt), unfolding(layout::specs::Picture::packet_at))]
pub fn price(m: &[u8], s: Shape, x: EntryId) -> u8
    requires { InRecords s x.0 m.now }
    ensures { result ≡ (packet_at (settings_of s) m.now x.0).price }
{
    layout::get(m, s, Table::Price, geometry::slot_of(s, x))
}

// All that is recorded for node x.
#[tactic(auto, using(memory::proofs::Chains::slot_lt), unfolding(layout::specs::Picture::packet_at))]
pub fn packet(m: &[u8], s: Shape, x: EntryId) -> Sent
    requires { InRecords s x.0 m.now }
    ensures { sent_of result ≡ packet_at (settings_of s) m.now x.0 }
{
    let at = geometry::slot_of(s, x);
    let length = layout::get(m, s, Table::Length, at);
    let timestamp = layout::get(m, s, Table::Stamp, at);
    let queue = layout::get(m, s, Table::Queue, at);
    let destination = layout::get(m, s, Table::Dest, at);
    let poisoned = layout::get(m, s, Table::Poisoned, at);
    let transaction = layout::get(m, s, Table::Transaction, at);
    let price = layout::get(m, s, Table::Price, at);
    Sent {
        entry: x,
        length,
        queue,
        destination,
        timestamp,
        poisoned,
        transaction,
        price,
    }
}

// All of k, recorded for its node.
#[tactic(auto, using(memory::proofs::Chains::slot_lt), unfolding(memory::specs::Writes::record_mem))]
pub fn record(m: &mut [u8], s: Shape, k: Sent)
    requires { InRecords s k.entry.0 m.old }
    ensures { m.new ≡ record_mem (settings_of s) (sent_of k) m.old }
{
    let at = geometry::slot_of(s, k.entry);
    layout::put(m, s, Table::Length, at, k.length);
    layout::put(m, s, Table::Stamp, at, k.timestamp);
    layout::put(m, s, Table::Queue, at, k.queue);
    layout::put(m, s, Table::Dest, at, k.destination);
    layout::put(m, s, Table::Poisoned, at, k.poisoned);
    layout::put(m, s, Table::Transaction, at, k.transaction);
    layout::put(m, s, Table::Price, at, k.price);
}
