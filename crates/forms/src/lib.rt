// The form of a header: how wide its fields are in a switch of an edition, so many ports and so many queues. Computed here and nowhere else.
#![tactic(auto)]

mod form;

ghost use Rattle.std.specs.Prelude.{◌≡◌, ◌≤◌};
ghost use Rattle.ledger.specs.Header.{width_of, form_of};
ghost use Rattle.forms.specs.Formed.{Forms, offer_of};

pub use form::HeaderForm;

// As wide as the count less one needs.
#[tactic(auto, using(ledger::proofs::Header::narrow_width), unfolding(ledger::specs::Header::width_of))]
fn width_of(n: u32) -> u32
    requires { (2 ≤ n) × (n ≤ 64) }
    ensures { (result ≡ width_of n) × (result ≤ 6) }
{
    32 - u32::leading_zeros(n - 1)
}

// The bytes of the credit on offer: one in the ten-byte header.
fn offer_of(edition: u32) -> u32
    ensures { (result ≡ offer_of edition) × (result ≤ 2) }
{
    if edition == 0 { 1 } else { 2 }
}

pub fn form_of(edition: u32, ports: u32, queues: u32) -> HeaderForm
    requires { (2 ≤ ports) × (ports ≤ 32) × (2 ≤ queues) × (queues ≤ 64) }
    ensures { Forms (form_of edition ports queues) result }
{
    let port = width_of(ports);
    let queue = width_of(queues);
    let offer = offer_of(edition);
    let bits = 2 * port + queue + 14;
    let front = (bits + 7) / 8;
    let spare = 8 * front - bits;
    let size = front + 4 + offer + 2;
    HeaderForm {
        port,
        queue,
        offer,
        front,
        spare,
        size,
    }
}
