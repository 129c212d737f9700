// The parts of a state that are neither lists nor records, read and written: credits, last served queues, marks, map entries, buckets.
#![tactic(auto)]

ghost use Rattle.std.specs.Prelude.{◌≡◌};
ghost use Rattle.ledger.specs.Ledger.{credit_at, arrival_of, outward_of, last_of, map_of, mark_of, bucket_at};
ghost use Rattle.ledger.specs.Buckets.{bucket#};
ghost use Rattle.layout.specs.declared.Table.TheVariants.{Mapped, Last, Halted, Arrival, Outward, Buckets};
ghost use Rattle.layout.specs.Tables.{cells, get, put};
ghost use Rattle.layout.specs.Shapes.{settings_of};
ghost use Rattle.layout.specs.Picture.{tabulate, ledger_in};
ghost use Rattle.memory.specs.Writes.{credit_mem};
ghost use Rattle.parts.specs.Parts.{InCell, InCredits, InPorts, InMap, InBuckets};

use layout::{Shape, Table};

// kept: a function for each column, since its clause names the ledger's column; one over the table would say the memory's (`layout::get`).

// ---- credits

#[tactic(auto, using(crate::proofs::Laws::cell_in, crate::proofs::Laws::credit_is, ledger::proofs::Places::credit_none))]
fn credit(m: &[u8], s: Shape, t: Table, p: usize, q: usize) -> u16
    requires { InCredits s t p q m.now }
    ensures { result ≡ credit_at (settings_of s) (tabulate (get (settings_of s) m.now t) 0 (cells (settings_of s))) p q }
{
    if q == 0 {
        return 0;
    }
    layout::get(m, s, t, geometry::cell_of(s, p, q))
}

// Queue 0 has no credit to write.
#[tactic(auto, using(crate::proofs::Laws::cell_in, crate::proofs::Laws::put_free, crate::proofs::Laws::put_paid))]
fn set_credit(m: &mut [u8], s: Shape, t: Table, p: usize, q: usize, v: u16)
    requires { InCredits s t p q m.old }
    ensures { m.new ≡ credit_mem (settings_of s) t p q v m.old }
{
    if q == 0 {
        return;
    }
    layout::put(m, s, t, geometry::cell_of(s, p, q), v);
}

#[tactic(auto, unfolding(layout::specs::Picture::ledger_in))]
pub fn arrival(m: &[u8], s: Shape, p: usize, q: usize) -> u16
    requires { InCell s p q m.now }
    ensures { result ≡ arrival_of (settings_of s) (ledger_in (settings_of s) m.now) p q }
{
    credit(m, s, Table::Arrival, p, q)
}

#[tactic(auto, unfolding(layout::specs::Picture::ledger_in))]
pub fn outward(m: &[u8], s: Shape, p: usize, q: usize) -> u16
    requires { InCell s p q m.now }
    ensures { result ≡ outward_of (settings_of s) (ledger_in (settings_of s) m.now) p q }
{
    credit(m, s, Table::Outward, p, q)
}

pub fn set_arrival(m: &mut [u8], s: Shape, p: usize, q: usize, v: u16)
    requires { InCell s p q m.old }
    ensures { m.new ≡ credit_mem (settings_of s) Arrival p q v m.old }
{
    set_credit(m, s, Table::Arrival, p, q, v);
}

pub fn set_outward(m: &mut [u8], s: Shape, p: usize, q: usize, v: u16)
    requires { InCell s p q m.old }
    ensures { m.new ≡ credit_mem (settings_of s) Outward p q v m.old }
{
    set_credit(m, s, Table::Outward, p, q, v);
}

// ---- what a port has one of, and the map

// The queue that port p served last.
#[tactic(auto, using(crate::proofs::Laws::last_is))]
pub fn last(m: &[u8], s: Shape, p: usize) -> u8
    requires { InPorts s p m.now }
    ensures { result ≡ last_of (ledger_in (settings_of s) m.now) p }
{
    layout::get(m, s, Table::Last, p)
}

pub fn set_last(m: &mut [u8], s: Shape, p: usize, q: u8)
    requires { InPorts s p m.old }
    ensures { m.new ≡ put (settings_of s) Last p q m.old }
{
    layout::put(m, s, Table::Last, p, q);
}

// The port of destination id d.
#[tactic(auto, using(crate::proofs::Laws::mapped_is))]
pub fn mapped(m: &[u8], s: Shape, d: usize) -> u8
    requires { InMap s d m.now }
    ensures { result ≡ map_of (ledger_in (settings_of s) m.now) d }
{
    layout::get(m, s, Table::Mapped, d)
}

pub fn set_mapped(m: &mut [u8], s: Shape, d: usize, p: u8)
    requires { InMap s d m.old }
    ensures { m.new ≡ put (settings_of s) Mapped d p m.old }
{
    layout::put(m, s, Table::Mapped, d, p);
}

// The mark of port p: 0, or the refusal for which it is halted.
#[tactic(auto, using(crate::proofs::Laws::mark_is))]
pub fn mark(m: &[u8], s: Shape, p: usize) -> u8
    requires { InPorts s p m.now }
    ensures { result ≡ mark_of (ledger_in (settings_of s) m.now) p }
{
    layout::get(m, s, Table::Halted, p)
}

pub fn set_mark(m: &mut [u8], s: Shape, p: usize, n: u8)
    requires { InPorts s p m.old }
    ensures { m.new ≡ put (settings_of s) Halted p n m.old }
{
    layout::put(m, s, Table::Halted, p, n);
}

// ---- buckets

// Bucket b of port p.
#[tactic(auto, using(crate::proofs::Laws::bucket_is, crate::proofs::Laws::bucket_in))]
pub fn bucket(m: &[u8], s: Shape, p: usize, b: usize) -> u32
    requires { InBuckets s p b m.now }
    ensures { result ≡ bucket_at (ledger_in (settings_of s) m.now) p b }
{
    layout::get(m, s, Table::Buckets, geometry::bucket_of(s, p, b))
}

#[tactic(auto, using(crate::proofs::Laws::bucket_in))]
pub fn set_bucket(m: &mut [u8], s: Shape, p: usize, b: usize, n: u32)
    requires { InBuckets s p b m.old }
    ensures { m.new ≡ put (settings_of s) Buckets (bucket# p b) n m.old }
{
    layout::put(m, s, Table::Buckets, geometry::bucket_of(s, p, b), n);
}
