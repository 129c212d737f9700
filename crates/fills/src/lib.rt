// The bytes of a new state, written table by table.
#![tactic(auto)]

ghost use Rattle.std.specs.Prelude.{◌≡◌, ◌++◌, ℕ, ◌<◌, ◌≤◌, length, drop, replicate};
ghost use Rattle.ledger.specs.Settings.{setting_count};
ghost use Rattle.layout.specs.Tables.{width, many};
ghost use Rattle.layout.specs.Shapes.{settings_of};
ghost use Rattle.memory.specs.Image.{fill, setting_at, linked, all_linked, setup_mem};
ghost use Rattle.fills.specs.Fills.{Room, Gives, filled, freed};

use layout::{Shape, Table};
use numbers::Number;

// Setting i of the eight, in their order.
fn setting_at(s: Shape, i: usize) -> usize
    requires { i < setting_count }
    ensures { result ≡ setting_at (settings_of s) i }
{
    match i {
        0 => s.ports,
        1 => s.queues,
        2 => s.nodes,
        3 => s.beat,
        4 => s.slots,
        5 => s.credit,
        6 => s.edition,
        _ => s.packets,
    }
}

// In a table of N's width, the elements at n places get n values.
fn put_each<N: Number, P: Fn(usize) -> usize, V: Fn(usize) -> N>(
    m: &mut [u8],
    s: Shape,
    t: Table,
    n: usize,
    place: P,
    value: V,
)
    requires room { Room s m.old }
    requires wide { width t ≡ N.BYTES }
    requires asked { (i : ℕ) → i < n → P.pre place i × V.pre value i }
    requires inside { (i r : ℕ) → i < n → P.post place i r → r < many (settings_of s) t }
    ensures { (g f : ℕ → ℕ) → Gives (λ r. r) (P.post place) n g → Gives N.value (V.post value) n f
        → m.new ≡ fill (settings_of s) t g f n m.old }
{
    for i in 0..n {
        layout::put(m, s, t, place(i), value(i));
    }
}

// The links of port p's nodes, each to the next.
fn put_links(m: &mut [u8], s: Shape, p: usize)
    requires { Room s m.old × (p < s.ports) }
    ensures { m.new ≡ linked (settings_of s) p m.old }
{
    let id = p * usize::from(ledger::IDS);
    put_each(
        m,
        s,
        Table::Next,
        s.nodes - 1,
        |i| p * s.nodes + i,
        |i| (id + 1 + i) as u16,
    );
}

#[tactic(auto, unfolding(memory::specs::Image::all_linked))]
fn put_all_links(m: &mut [u8], s: Shape)
    requires { Room s m.old }
    ensures { m.new ≡ all_linked (settings_of s) s.ports m.old }
{
    for p in 0..s.ports {
        put_links(m, s, p);
    }
}

// Each port's free list, with all its nodes in their order.
#[tactic(auto, using(crate::proofs::Fills::free_in))]
fn put_free_lists(m: &mut [u8], s: Shape)
    requires { Room s m.old }
    ensures { m.new ≡ freed (settings_of s) m.old }
{
    let ids = usize::from(ledger::IDS);
    put_each(
        m,
        s,
        Table::Head,
        s.ports,
        |p| p * s.row,
        |p| (p * ids) as u16,
    );
    put_each(
        m,
        s,
        Table::Tail,
        s.ports,
        |p| p * s.row,
        |p| (p * ids + (s.nodes - 1)) as u16,
    );
    put_each(
        m,
        s,
        Table::Count,
        s.ports,
        |p| p * s.row,
        |_| s.nodes as u32,
    );
    put_all_links(m, s);
}

// What stands before the lists: the settings; each port's last served queue, as if its last queue had been served last; the credits. (No
// port is halted: those bytes stay 0.)
fn put_columns(m: &mut [u8], s: Shape)
    requires { Room s m.old }
    ensures { m.new ≡ filled (settings_of s) m.old }
{
    let last = (s.queues - 1) as u8;
    put_each(m, s, Table::Setting, 8, |i| i, |i| setting_at(s, i) as u16);
    put_each(m, s, Table::Last, s.ports, |p| p, |_| last);
    put_each(m, s, Table::Arrival, s.cells, |c| c, |_| s.credit as u16);
}

// The first n bytes become 0.
fn clear(m: &mut [u8], n: usize)
    requires { n ≤ length m.old }
    ensures { m.new ≡ replicate n 0 ++ drop n m.old }
{
    m[..n].fill(0);
}

// Every byte of a new state, over anything.
pub fn put_state(m: &mut [u8], s: Shape)
    requires { Room s m.old }
    ensures { m.new ≡ setup_mem (settings_of s) m.old }
{
    clear(m, layout::size_of(s));
    put_columns(m, s);
    put_free_lists(m, s);
}
