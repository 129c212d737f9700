// A header of any form, alone or in front of a whole packet: its fields read from bytes, its own refusals, its price. The ten-byte header is
// one of the forms.
#![tactic(auto)]

ghost use Rattle.std.specs.Prelude.{◌≡◌, List, ℕ, ◌+◌, ◌^◌, ◌<◌, ◌≤◌, length};
ghost use Rattle.numbers.specs.Bytes.{number};
ghost use Rattle.numbers.specs.Fields.{bits, unpack};
ghost use Rattle.ledger.specs.Header.{fields_of, header_size, size_number, price};
ghost use Rattle.ledger.specs.Answers.{number_of, load_of};
ghost use Rattle.forms.specs.Formed.{form_in};
ghost use Rattle.header.specs.Front.{front_widths, front_of};
ghost use Rattle.header.specs.Parse.{header_of, parsed_of, parsed};
ghost use Rattle.header.specs.Loads.{misfit, other};
ghost use Rattle.header.specs.Judge.{verdict_of, verdict, opened, settled, readable};

use forms::HeaderForm;
use ledger::{Load, Refusal};
use numbers::Number;

// The fields of a header, the front's six and then a field for each run of whole bytes.
#[derive(Clone, Copy)]
pub struct HeaderFields {
    pub dest: u8,
    pub source: u8,
    pub queue: u8,
    pub len: u16,
    pub poisoned: u8,
    pub reserved: u8,
    pub stamp: u32,
    pub offered: u16,
    pub transaction: u8,
    pub check: u8,
}

// The first six of them.
#[derive(Clone, Copy)]
struct Front {
    dest: u8,
    source: u8,
    queue: u8,
    len: u16,
    poisoned: u8,
    reserved: u8,
}

// A field of at most eight bits.
#[tactic(auto, using(crate::proofs::Reading::bits_few))]
fn small(w: u32, lo: u32, width: u32) -> u8
    requires { (lo < 32) × (width ≤ 8) }
    ensures { result ≡ bits lo width w }
{
    numbers::field(w, lo, width) as u8
}

// The front of a header as a number: its three or four bytes stand first, and what a word of four has beside them goes.
#[tactic(auto, using(crate::proofs::Reading::front_of_word))]
fn front_word(h: &[u8], form: HeaderForm) -> u32
    requires { header_size (form_in form) ≤ length h.now }
    ensures { result ≡ number form.front h.now 0 }
{
    u32::read(h, 0) >> (8 * (4 - form.front))
}

// Its fields, from the last to the first.
#[tactic(auto, using(numbers::proofs::Fields::bits_lt))]
fn front_fields(w: u32, form: HeaderForm) -> Front
    ensures { front_of result ≡ unpack (front_widths (form_in form)) w }
{
    let lo = form.spare;
    let above = lo + 14;
    let ports = above + form.queue;
    let reserved = small(w, 0, lo);
    let poisoned = small(w, lo, 1);
    let len = numbers::field(w, lo + 1, 13) as u16;
    let queue = small(w, above, form.queue);
    let source = small(w, ports, form.port);
    let dest = small(w, ports + form.port, form.port);
    Front {
        dest,
        source,
        queue,
        len,
        poisoned,
        reserved,
    }
}

// The credit on offer, of one or two bytes.
fn offered_at(h: &[u8], at: usize, bytes: u32) -> u16
    requires { (1 ≤ bytes) × (bytes ≤ 2) × (at + bytes ≤ length h.now) }
    ensures { result ≡ number bytes h.now at }
{
    if bytes == 1 {
        u16::from(u8::read(h, at))
    } else {
        u16::read(h, at)
    }
}

// The fields of bytes that start with a header.
fn fields(h: &[u8], form: HeaderForm) -> HeaderFields
    requires { header_size (form_in form) ≤ length h.now }
    ensures { header_of result ≡ fields_of (form_in form) h.now }
{
    let w = front_word(h, form);
    let front = front_fields(w, form);
    let at = form.front as usize;
    let stamp = u32::read(h, at);
    let offered = offered_at(h, at + 4, form.offer);
    let last = (form.size - 2) as usize;
    let transaction = u8::read(h, last);
    let check = u8::read(h, last + 1);
    HeaderFields {
        dest: front.dest,
        source: front.source,
        queue: front.queue,
        len: front.len,
        poisoned: front.poisoned,
        reserved: front.reserved,
        stamp,
        offered,
        transaction,
        check,
    }
}

// Whether n bytes can't be what arrives where a header has so many: a header alone has just these, a packet has them in front.
fn missized(load: Load, n: usize, size: usize) -> bool
    ensures { result ≡ misfit load n size }
{
    match load {
        Load::Header => n != size,
        Load::Packet(_) => n < size,
    }
}

// And whether a packet has other than the bytes that its header counts.
fn miscounted(load: Load, n: usize, len: usize) -> bool
    ensures { result ≡ other load n len }
{
    match load {
        Load::Header => false,
        Load::Packet(_) => n != len,
    }
}

// How bytes that can't be what arrives are refused.
fn size_refusal(load: Load) -> Refusal
    ensures { (b : List ℕ) → number_of result ≡ size_number (load_of load b) }
{
    match load {
        Load::Header => Refusal::HeaderSize,
        Load::Packet(_) => Refusal::PacketBytes,
    }
}

// The fields of what arrives: none where its size is wrong. Nothing but the size is asked.
#[tactic(auto, using(crate::proofs::Reading::loads), unfolding(crate::specs::Parse::parsed))]
pub fn parse(load: Load, h: &[u8], form: HeaderForm) -> Option<HeaderFields>
    ensures { parsed_of result ≡ parsed (form_in form) (load_of load h.now) }
{
    if missized(load, h.len(), form.size as usize) {
        return None;
    }
    Some(fields(h, form))
}

// The refusals that are tested before the source: of the bytes, and of the reserved bits.
#[tactic(auto, using(crate::proofs::Reading::loads), unfolding(crate::specs::Parse::parsed, ledger::specs::Header::header_size))]
fn open(load: Load, h: &[u8], form: HeaderForm) -> Result<HeaderFields, Refusal>
    ensures { verdict_of result ≡ opened (form_in form) (load_of load h.now) }
{
    let f = parse(load, h, form).ok_or(size_refusal(load))?;
    let body = (form.size - 1) as usize;
    let sum = crc::checksum(&h[..body]);
    if f.check != sum {
        return Err(Refusal::Checksum);
    }
    if f.reserved != 0 {
        return Err(Refusal::ReservedBit);
    }
    Ok(f)
}

// Those that are tested after it: of the length, of the bytes' count and of the queue.
#[tactic(auto, unfolding(ledger::specs::Header::least_length))]
fn settle(
    f: HeaderFields,
    form: HeaderForm,
    queues: u32,
    miscounted: bool,
) -> Result<HeaderFields, Refusal>
    ensures { verdict_of result ≡ settled (form_in form) queues miscounted (header_of f) }
{
    if u32::from(f.len) < form.size + 2 {
        return Err(Refusal::TooShort);
    }
    if miscounted {
        return Err(Refusal::PacketBytes);
    }
    if queues <= u32::from(f.queue) {
        return Err(Refusal::HeaderQueue);
    }
    Ok(f)
}

// The refusals of what arrives at a port, in a switch of so many queues, in the order in which they are tested; or the header's fields.
pub fn judge(
    load: Load,
    h: &[u8],
    form: HeaderForm,
    queues: u32,
    port: u32,
) -> Result<HeaderFields, Refusal>
    ensures { verdict_of result ≡ verdict (form_in form) queues port (load_of load h.now) }
{
    let f = open(load, h, form)?;
    if u32::from(f.source) != port {
        return Err(Refusal::Source);
    }
    let off = miscounted(load, h.len(), usize::from(f.len));
    settle(f, form, queues, off)
}

// The refusals of a header that arrives nowhere: an arrival's, without that of its source.
pub fn judge_read(h: &[u8], form: HeaderForm, queues: u32) -> Result<HeaderFields, Refusal>
    ensures { verdict_of result ≡ readable (form_in form) queues h.now }
{
    let f = open(Load::Header, h, form)?;
    settle(f, form, queues, false)
}

// What a packet costs, in beats. The bounds keep the sum within the type.
#[tactic(auto, unfolding(ledger::specs::Header::price))]
pub fn price_of(beat: u32, queue: u32, len: u32) -> u32
    requires { (1 ≤ beat) × (beat ≤ 512) × (len < 2 ^ 13) }
    ensures { result ≡ price beat queue len }
{
    if queue == 0 {
        return 0;
    }
    (len + (beat - 1)) / beat
}
