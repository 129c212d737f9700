// Arrive, of a header alone or of a whole packet, on a memory that is a switch state: judged first, then a free node takes the packet in.
#![tactic(auto)]

ghost use Rattle.std.specs.Prelude.{◌≡◌, List, ℕ};
ghost use Rattle.ledger.specs.Header.{form};
ghost use Rattle.ledger.specs.Ledger.{recorded};
ghost use Rattle.ledger.specs.Answers.{sent_of, load_of, entry_reply};
ghost use Rattle.ledger.specs.Calls.{Reply, arrive, lacks};
ghost use Rattle.header.specs.Judge.{verdict, verdict_of};
ghost use Rattle.header.specs.Parse.{header_of};
ghost use Rattle.layout.specs.Shapes.{settings_of};
ghost use Rattle.layout.specs.Picture.{ledger_in};
ghost use Rattle.parts.specs.Parts.{InCell};
ghost use Rattle.memory.specs.Writes.{arrive_mem};
ghost use Rattle.memory.specs.Judged.{judgement_of, Works};
ghost use Rattle.memory.specs.Memory.{acted};
ghost use Rattle.arrivals.specs.Admission.{admitted_of, judged_fields, judged_at, judged_kind, judged_arrival, CanPrice, CanAdmit, CanTakeIn};

use header::HeaderFields;
use layout::Shape;
use ledger::{EntryId, Load, Refusal, Sent};

// The packet that a header with these fields makes of node x.
#[tactic(auto, using(ledger::proofs::Header::price_le), unfolding(ledger::specs::Ledger::recorded))]
fn packet_of(s: Shape, x: EntryId, f: HeaderFields) -> Sent
    requires { CanPrice s (header_of f) }
    ensures { sent_of result ≡ recorded (settings_of s) x.0 (header_of f) }
{
    let price = header::price_of(s.beat as u32, u32::from(f.queue), u32::from(f.len));
    Sent {
        entry: x,
        length: f.len,
        queue: f.queue,
        destination: f.dest,
        timestamp: f.stamp,
        poisoned: f.poisoned,
        transaction: f.transaction,
        price: price as u8,
    }
}

// Whether port p lacks the credit for a price in queue q; a halt counts as that.
fn wanting(m: &[u8], s: Shape, p: usize, q: usize, price: u16) -> bool
    requires { InCell s p q m.now }
    ensures { result ≡ lacks (settings_of s) (ledger_in (settings_of s) m.now) p q price }
{
    halts::held_up(m, s, p, q) || parts::arrival(m, s, p, q) < price
}

// The refusals that are left where the port and the header are right: credit, then a free node. Or the packet to record.
fn admit(m: &[u8], s: Shape, p: usize, f: HeaderFields) -> Result<Sent, Refusal>
    requires { CanAdmit s p (header_of f) m.now }
    ensures { admitted_of result ≡ judged_fields (settings_of s) m.now p (header_of f) }
{
    let free = geometry::free_list(s, p);
    let k = packet_of(s, lists::first(m, s, free), f);
    if wanting(m, s, p, usize::from(k.queue), u16::from(k.price)) {
        return Err(Refusal::NoCredit);
    }
    if lists::count(m, s, free) == 0 {
        return Err(Refusal::NoFreeNode);
    }
    Ok(k)
}

// The header's own refusals, by the form of the headers that the switch takes.
fn judge_header(load: Load, h: &[u8], s: Shape, port: u32) -> Result<HeaderFields, Refusal>
    ensures { verdict_of result ≡ verdict (form (settings_of s)) s.queues port (load_of load h.now) }
{
    let queues = s.queues as u32;
    let form = forms::form_of(s.edition as u32, s.ports as u32, queues);
    header::judge(load, h, form, queues, port)
}

// Those that are left where what arrives is of the switch's kind: the port, the header, credit, a free node.
fn judge_at(m: &[u8], s: Shape, load: Load, port: u32, h: &[u8]) -> Result<Sent, Refusal>
    requires { Works s m.now }
    ensures { admitted_of result ≡ judged_at (settings_of s) m.now port (load_of load h.now) }
{
    let p = port as usize;
    if s.ports <= p {
        return Err(Refusal::NoPort);
    }
    let f = judge_header(load, h, s, port)?;
    admit(m, s, p, f)
}

// Those before it: a switch that keeps packets takes no header alone, and another no packet; and a packet memory has its size.
#[tactic(auto, unfolding(crate::specs::Admission::judged_kind))]
fn judge_kind(s: Shape, load: Load) -> Result<(), Refusal>
    ensures { (b : List ℕ) → judgement_of result ≡ judged_kind (settings_of s) (load_of load b) }
{
    match load {
        Load::Header if packets::keeps(s.packets) => Err(Refusal::OtherKind),
        Load::Packet(_) if !packets::keeps(s.packets) => Err(Refusal::OtherKind),
        Load::Packet(n) if packets::other_size(s, n) => Err(Refusal::PacketMemory),
        _ => Ok(()),
    }
}

// The first refusal of an arrival that applies, or the packet that arrives.
pub fn judge_arrive(m: &[u8], s: Shape, load: Load, port: u32, h: &[u8]) -> Result<Sent, Refusal>
    requires { Works s m.now }
    ensures { admitted_of result ≡ judged_arrival (settings_of s) m.now port (load_of load h.now) }
{
    judge_kind(s, load)?;
    judge_at(m, s, load, port, h)
}

// Packet k, of port p's first free node, goes to the end of the ingress list, paid from the port's arrival credit.
fn take_in(m: &mut [u8], s: Shape, p: usize, k: Sent)
    requires { CanTakeIn s p (sent_of k) m.old }
    ensures { m.new ≡ arrive_mem (settings_of s) p (sent_of k) m.old }
{
    let q = usize::from(k.queue);
    let price = u16::from(k.price);
    let credit = parts::arrival(m, s, p, q);
    let from = geometry::free_list(s, p);
    let to = geometry::ingress_list(s, p);
    let x = lists::pop(m, s, from);
    records::record(m, s, k);
    lists::push(m, s, to, x);
    parts::set_arrival(m, s, p, q, credit - price);
}

// What the header says recorded for the port's first free node, which goes to the end of the ingress list. A port that lies is halted.
pub fn arrive(m: &mut [u8], s: Shape, load: Load, port: u32, h: &[u8]) -> Result<EntryId, Refusal>
    requires { Works s m.old }
    ensures { ◌≡◌ {A = Reply × List ℕ} (entry_reply result, m.new)
        (acted (settings_of s) m.old (arrive port (load_of load h.now))) }
{
    match judge_arrive(m, s, load, port, h) {
        Ok(k) => {
            take_in(m, s, port as usize, k);
            Ok(k.entry)
        }
        Err(no) => {
            halts::halt(m, s, port, no);
            Err(no)
        }
    }
}
