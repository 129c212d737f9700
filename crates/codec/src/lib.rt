// What a header says, as the reader hands it back and the writer is handed it.
#![tactic(auto)]

mod written;

ghost use Rattle.std.specs.Prelude.{◌≡◌, ◌-◌, ◌*◌, ◌^◌, ◌<◌, MatchResult, true, false, ltb};
ghost use Rattle.numbers.specs.Fields.{pack, fitting, Fit};
ghost use Rattle.ledger.specs.Header.{widths, form_of};
ghost use Rattle.forms.specs.Formed.{form_in};
ghost use Rattle.header.specs.Front.{front_widths};
ghost use Rattle.header.specs.Parse.{header_of};
ghost use Rattle.codec.specs.Label.{label_of, values, front_values, label_in, counts_in};
ghost use Rattle.codec.specs.Reader.{reads, read_of};
ghost use Rattle.codec.specs.Writer.{holds, body_for, header_for, writes, padded, Answers};

use forms::HeaderForm;
use header::HeaderFields;
use ledger::Refusal;
use numbers::Number;
pub use written::Written;

// A label: numbers of any size.
#[derive(Clone, Copy)]
pub struct Label {
    pub destination: u32,
    pub source: u32,
    pub queue: u32,
    pub length: u32,
    pub poisoned: u32,
    pub timestamp: u32,
    pub credit: u32,
    pub transaction: u32,
}

// What the fields of a header say.
impl From<HeaderFields> for Label {
    ghost from_gives = { λ f v. label_in v ≡ label_of (header_of f) };

    fn from(f: HeaderFields) -> Label {
        Label {
            destination: u32::from(f.dest),
            source: u32::from(f.source),
            queue: u32::from(f.queue),
            length: u32::from(f.len),
            poisoned: u32::from(f.poisoned),
            timestamp: f.stamp,
            credit: u32::from(f.offered),
            transaction: u32::from(f.transaction),
        }
    }
}

// Whether an edition has switches of so many ports and queues.
// kept: edition, ports and queues stay three numbers, as the C interface hands them and `counts_in` judges them.
#[tactic(auto, unfolding(crate::specs::Label::counts_in))]
fn counts_in(edition: u32, ports: u32, queues: u32) -> bool
    ensures { result ≡ counts_in edition ports queues }
{
    settings::ports_in(edition, ports) && settings::queues_in(edition, queues) && edition <= 1
}

// The form of the headers in a switch of this edition and these counts, where there are such switches.
#[tactic(auto, using(crate::proofs::Labels::counts_mean))]
fn form_for(edition: u32, ports: u32, queues: u32) -> Result<HeaderForm, Refusal>
    ensures { MatchResult result
        (λ f. (counts_in edition ports queues ≡ true) × (form_in f ≡ form_of edition ports queues))
        (λ no. (counts_in edition ports queues ≡ false) × (no ≡ Refusal.BadSetting)) }
{
    if !counts_in(edition, ports, queues) {
        return Err(Refusal::BadSetting);
    }
    Ok(forms::form_of(edition, ports, queues))
}

// What a header says, in a switch of this edition and these counts.
pub fn read(edition: u32, ports: u32, queues: u32, h: &[u8]) -> Result<Label, Refusal>
    ensures { read_of result ≡ reads edition ports queues h.now }
{
    let form = form_for(edition, ports, queues)?;
    let f = header::judge_read(h, form, queues)?;
    Ok(Label::from(f))
}

// Whether a number fits a field of so many bits.
fn fits(v: u32, width: u32) -> bool
    requires { width < 32 }
    ensures { result ≡ ltb v (2 ^ width) }
{
    v < 1 << width
}

// Whether each number of a label fits its field. The timestamp's has as many bits as the number.
fn all_fit(v: Label, form: HeaderForm) -> bool
    ensures { result ≡ fitting (widths (form_in form)) (values (label_in v)) }
{
    fits(v.destination, form.port)
        && fits(v.source, form.port)
        && fits(v.queue, form.queue)
        && fits(v.length, 13)
        && v.poisoned < 2
        && fits(v.credit, 8 * form.offer)
        && fits(v.transaction, 8)
}

// Whether a header of the form can say it, in a switch of so many queues.
#[tactic(auto, unfolding(crate::specs::Writer::holds, ledger::specs::Header::least_length))]
fn can_say(v: Label, form: HeaderForm, queues: u32) -> bool
    ensures { result ≡ holds (form_in form) queues (label_in v) }
{
    all_fit(v, form) && form.size + 2 <= v.length && v.queue < queues
}

// The front's number, with as many zeros behind it as a word of four bytes has room for.
fn front_from(v: Label, form: HeaderForm) -> u32
    requires { Fit (widths (form_in form)) (values (label_in v)) }
    ensures { result ≡ pack (front_widths (form_in form)) (front_values (label_in v)) * 2 ^ (8 * (4 - form.front)) }
{
    let ports = numbers::join(v.destination, form.port, v.source);
    let queue = numbers::join(ports, form.queue, v.queue);
    let length = numbers::join(queue, 13, v.length);
    let flag = numbers::join(length, 1, v.poisoned);
    numbers::join(flag, form.spare + 8 * (4 - form.front), 0)
}

// The bytes before the checksum. Each number is written over the zeros of the one before it.
fn body(v: Label, form: HeaderForm) -> [u8; 12]
    requires { Fit (widths (form_in form)) (values (label_in v)) }
    ensures { result ≡ padded (body_for (form_in form) (label_in v)) }
{
    let mut b = [0u8; 12];
    let at = form.front as usize;
    let last = (form.size - 2) as usize;
    let front = front_from(v, form);
    let credit = numbers::join(v.credit, 8 * (2 - form.offer), 0) as u16;
    let transaction = v.transaction as u8;
    front.write(&mut b, 0);
    v.timestamp.write(&mut b, at);
    credit.write(&mut b, at + 4);
    transaction.write(&mut b, last);
    b
}

// The whole header, with its checksum.
#[tactic(auto, using(crate::proofs::Labels::header_stored))]
fn seal(v: Label, form: HeaderForm) -> [u8; 12]
    requires { Fit (widths (form_in form)) (values (label_in v)) }
    ensures { result ≡ padded (header_for (form_in form) (label_in v)) }
{
    let mut b = body(v, form);
    let last = (form.size - 1) as usize;
    let sum = crc::checksum(&b[..last]);
    sum.write(&mut b, last);
    b
}

// A label as a header, in a switch of this edition and these counts.
pub fn write(edition: u32, ports: u32, queues: u32, label: Label) -> Result<Written, Refusal>
    ensures { Answers result (writes edition ports queues (label_in label)) }
{
    let form = form_for(edition, ports, queues)?;
    if !can_say(label, form, queues) {
        return Err(Refusal::NoFit);
    }
    Ok(Written {
        size: form.size,
        bytes: seal(label, form),
    })
}
