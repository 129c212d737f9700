// Show, on a memory that is a switch state: which packet is the oldest of a queue's slots, and where it lies.
#![tactic(auto)]

ghost use Rattle.std.specs.Prelude.{◌≡◌, List, ℕ};
ghost use Rattle.std.specs.List.{list_any};
ghost use Rattle.ledger.specs.Answers.{number_in, show_reply};
ghost use Rattle.ledger.specs.Calls.{show, other_size};
ghost use Rattle.layout.specs.Shapes.{settings_of};
ghost use Rattle.layout.specs.Picture.{ledger_in};
ghost use Rattle.memory.specs.Judged.{Works, judgement_of, judged};
ghost use Rattle.memory.specs.Memory.{acted};
ghost use Rattle.packets.specs.Parts.{sizes_of, shown_of};

use layout::Shape;
use ledger::{EntryId, Refusal};

// Whether one of four memories has another size than a port's packet memory.
fn other_sizes(s: Shape, sizes: [usize; 4]) -> bool
    ensures { result ≡ list_any (other_size (settings_of s)) sizes }
{
    sizes.iter().any(|n| packets::other_size(s, *n))
}

// The first refusal of a show that applies, with packet memories of these sizes.
#[tactic(auto, using(memory::proofs::Judging::judging, crate::proofs::Laws::any_other), unfolding(memory::specs::Judged::judged))]
pub fn judge_show(
    m: &[u8],
    s: Shape,
    sizes: [usize; 4],
    port: u32,
    queue: u32,
) -> Result<(), Refusal>
    requires { Works s m.now }
    ensures { judgement_of result ≡ judged (settings_of s) (ledger_in (settings_of s) m.now) (show sizes port queue) }
{
    if !packets::keeps(s.packets) {
        return Err(Refusal::OtherKind);
    }
    if other_sizes(s, sizes) {
        return Err(Refusal::PacketMemory);
    }
    let p = port as usize;
    let q = queue as usize;
    if s.ports <= p {
        return Err(Refusal::NoPort);
    }
    if s.queues <= q {
        return Err(Refusal::NoQueue);
    }
    let waiting = lists::count(m, s, geometry::prefetch_list(s, p, q));
    if waiting == 0 {
        return Err(Refusal::NothingThere);
    }
    Ok(())
}

// The oldest packet of the slots of port and queue, by its node and its length.
pub fn show_at(
    m: &[u8],
    s: Shape,
    sizes: [usize; 4],
    port: u32,
    queue: u32,
) -> Result<(EntryId, u16), Refusal>
    requires { Works s m.now }
    ensures { show_reply result ≡ (acted (settings_of s) m.now (show sizes port queue)).0 }
{
    judge_show(m, s, sizes, port, queue)?;
    let at = geometry::prefetch_list(s, port as usize, queue as usize);
    let oldest = lists::first(m, s, at);
    let k = records::packet(m, s, oldest);
    Ok((oldest, k.length))
}

// The sizes of four memories.
fn sizes(memories: [&[u8]; 4]) -> [usize; 4]
    ensures { result ≡ sizes_of memories.entry }
{
    memories.map(|k| k.len())
}

// The same as a part of its owner's memory; of a refusal an empty part, and its number goes into the number lent for it, else 0.
// kept: the clauses `refusal` and `shown`: paper 02 asks for an empty part, and for the number in a number lent for just that
pub fn show<'a>(
    m: &[u8],
    s: Shape,
    memories: [&'a [u8]; 4],
    port: u32,
    queue: u32,
    no: &mut u32,
) -> &'a [u8]
    requires { Works s m.now }
    ensures refusal { no.new ≡ number_in (acted (settings_of s) m.now (show (sizes_of memories.entry) port queue)).0 }
    ensures shown { ◌≡◌ {A = List ℕ × (ℕ × ℕ)} (result.now, result.ref_ptr)
        (shown_of (acted (settings_of s) m.now (show (sizes_of memories.entry) port queue)).0 memories.entry) }
{
    match show_at(m, s, sizes(memories), port, queue) {
        Ok((id, n)) => {
            *no = 0;
            let owner = u32::from(id.port());
            packets::part(memories, owner, packets::slot_of(id), usize::from(n))
        }
        Err(r) => {
            *no = u32::from(r);
            &memories[0][..0]
        }
    }
}
