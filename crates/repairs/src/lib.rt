// Repair: over any memory whose settings are in their rows, and which is long enough, the bytes of a new state, with the map kept.
#![tactic(auto)]

ghost use Rattle.std.specs.Prelude.{◌≡◌, List, ℕ, get_or};
ghost use Rattle.ledger.specs.Settings.{ids};
ghost use Rattle.ledger.specs.Calls.{Reply};
ghost use Rattle.ledger.specs.Answers.{plain_reply};
ghost use Rattle.ledger.specs.Repair.{mended};
ghost use Rattle.layout.specs.declared.Table.TheVariants.{Mapped};
ghost use Rattle.layout.specs.Shapes.{settings_of};
ghost use Rattle.memory.specs.Image.{fill};
ghost use Rattle.memory.specs.Repair.{repair_mem, repaired};
ghost use Rattle.fills.specs.Fills.{Room};
ghost use Rattle.repairs.specs.Kept.{Lent, Mends};

use layout::{Shape, Table};
use ledger::Refusal;

// Entries of the map: one for each destination id.
const ENTRIES: usize = 4096;

// A map entry: 0 where it is no port.
fn mended(s: Shape, entry: u8) -> u8
    ensures { result ≡ mended (settings_of s) entry }
{
    if usize::from(entry) < s.ports {
        entry
    } else {
        0
    }
}

// The map's entries, mended, into lent room.
fn keep(m: &[u8], s: Shape, map: &mut [u8])
    requires { Lent s m.now map.old }
    ensures { Mends s m.now map.new }
{
    for (i, entry) in map.iter_mut().enumerate() {
        *entry = mended(s, layout::get(m, s, Table::Mapped, i));
    }
}

#[tactic(auto, using(crate::proofs::Keeping::keeping))]
fn put_back(m: &mut [u8], s: Shape, map: &[u8])
    requires { Lent s m.old map.now }
    ensures { m.new ≡ fill (settings_of s) Mapped (λ i. i) (λ i. get_or map.now i 0) ids m.old }
{
    for (i, entry) in map.iter().enumerate() {
        layout::put(m, s, Table::Mapped, i, *entry);
    }
}

// A state opened with shape s starts afresh.
fn restart(m: &mut [u8], s: Shape)
    requires { Room s m.old }
    ensures { m.new ≡ repair_mem (settings_of s) m.old }
{
    let mut map = [0u8; ENTRIES];
    keep(m, s, &mut map);
    fills::put_state(m, s);
    put_back(m, s, &map);
}

// The starting ledger for the settings that a memory has, with the map kept; or a refusal with no byte changed.
pub fn repair(m: &mut [u8]) -> Result<(), Refusal>
    ensures { ◌≡◌ {A = Reply × List ℕ} (plain_reply result, m.new) (repaired m.old) }
{
    match ranges::open(m) {
        Ok(s) => {
            restart(m, s);
            Ok(())
        }
        Err(_) => Err(Refusal::NoState),
    }
}
