// The tagged fields of a bench run, read from bytes: a tag, the length of its value, and the value; and the call that each tells.
#![tactic(auto)]

ghost use Rattle.std.specs.Prelude.{◌≡◌, ℕ, ◌+◌, ◌≤◌, length};
ghost use Rattle.fields.specs.Field.{field_at};
ghost use Rattle.fields.specs.Calls.{tag#, Tells, size_of, call_of, whole_told, order_at};

use numbers::Number;

// What stands at a place of the bytes.
// kept: there are three outcomes, and a Result of an Option is no plainer.
#[derive(Clone, Copy)]
pub enum Field {
    // A whole field: its value is the len bytes from start on, and next is past it.
    Whole {
        tag: u8,
        start: usize,
        len: usize,
        next: usize,
    },
    // Some bytes, and fewer than the field has.
    Cut,
    // No bytes.
    End,
}

// A call with its arguments. An arrival's header is the ten bytes from at on.
#[derive(Clone, Copy)]
pub enum Order {
    Setup {
        nodes: u32,
        beat: u32,
        slots: u32,
        credit: u32,
    },
    Arrive {
        port: u32,
        at: usize,
    },
    Stitch {
        port: u32,
    },
    Prefetch {
        port: u32,
        queue: u32,
    },
    Turn {
        port: u32,
    },
    Credit {
        port: u32,
        queue: u32,
        amount: u32,
    },
    Map {
        id: u32,
        port: u32,
    },
}

// What is read at a place: a call and the place past its field, a field that tells none, or the end.
// kept: there are three outcomes, and a Result of an Option is no plainer.
#[derive(Clone, Copy)]
pub enum Read {
    Call { order: Order, next: usize },
    Bad,
    End,
}

// The field at a place.
#[tactic(auto, using(crate::proofs::Fields::field_end, crate::proofs::Fields::field_cut, crate::proofs::Fields::field_whole))]
pub fn field_at(s: &[u8], at: usize) -> Field
    ensures { result ≡ field_at s.now at }
{
    if s.len() <= at {
        return Field::End;
    }
    if s.len() - at < 3 {
        return Field::Cut;
    }
    let tag = u8::read(s, at);
    let len = usize::from(u16::read(s, at + 1));
    let next = at + 3 + len;
    if s.len() < next {
        return Field::Cut;
    }
    Field::Whole {
        tag,
        start: at + 3,
        len,
        next,
    }
}

// The tags of the fields that tell a call.
#[derive(Clone, Copy)]
enum Tag {
    Setup = 1,
    Arrive = 2,
    Stitch = 3,
    Prefetch = 4,
    Turn = 5,
    Credit = 6,
    Map = 7,
}

impl Tag {
    // The tag that a number is, where it is one.
    fn of(n: u8) -> Option<Tag>
        ensures { Tells n result }
    {
        match n {
            1 => Some(Tag::Setup),
            2 => Some(Tag::Arrive),
            3 => Some(Tag::Stitch),
            4 => Some(Tag::Prefetch),
            5 => Some(Tag::Turn),
            6 => Some(Tag::Credit),
            7 => Some(Tag::Map),
            _ => None,
        }
    }

    // How long its field's value is.
    #[tactic(auto, unfolding(crate::specs::Calls::size_of))]
    fn size(self) -> usize
        ensures { result ≡ size_of (tag# self) }
    {
        match self {
            Tag::Setup => 7,
            Tag::Arrive => 11,
            Tag::Stitch => 1,
            Tag::Prefetch => 2,
            Tag::Turn => 1,
            Tag::Credit => 4,
            Tag::Map => 2,
        }
    }

    // The call that its field tells, from its value at v.
    #[tactic(auto, unfolding(crate::specs::Calls::size_of, crate::specs::Calls::call_of))]
    fn order(self, s: &[u8], v: usize) -> Order
        requires { v + size_of (tag# self) ≤ length s.now }
        ensures { (next : ℕ) → Read.Call result next ≡ call_of s.now (tag# self) v next }
    {
        match self {
            Tag::Setup => Order::Setup {
                nodes: u32::from(u16::read(s, v)),
                beat: u32::from(u16::read(s, v + 2)),
                slots: u32::from(u8::read(s, v + 4)),
                credit: u32::from(u16::read(s, v + 5)),
            },
            Tag::Arrive => Order::Arrive {
                port: u32::from(u8::read(s, v)),
                at: v + 1,
            },
            Tag::Stitch => Order::Stitch {
                port: u32::from(u8::read(s, v)),
            },
            Tag::Prefetch => Order::Prefetch {
                port: u32::from(u8::read(s, v)),
                queue: u32::from(u8::read(s, v + 1)),
            },
            Tag::Turn => Order::Turn {
                port: u32::from(u8::read(s, v)),
            },
            Tag::Credit => Order::Credit {
                port: u32::from(u8::read(s, v)),
                queue: u32::from(u8::read(s, v + 1)),
                amount: u32::from(u16::read(s, v + 2)),
            },
            Tag::Map => Order::Map {
                id: u32::from(u8::read(s, v)),
                port: u32::from(u8::read(s, v + 1)),
            },
        }
    }
}

// The call of a whole field, whose value is the len bytes from v on: told if the length is its tag's.
#[tactic(auto, using(crate::proofs::Tables::whole_none))]
pub fn order_of(s: &[u8], tag: u8, v: usize, len: usize, next: usize) -> Read
    requires { v + len ≤ length s.now }
    ensures { result ≡ whole_told s.now tag v len next }
{
    match Tag::of(tag) {
        Some(t) if len == t.size() => Read::Call {
            order: t.order(s, v),
            next,
        },
        _ => Read::Bad,
    }
}

// The call that the field at a place tells.
#[tactic(auto, using(crate::proofs::Fields::whole_inside))]
pub fn order_at(s: &[u8], at: usize) -> Read
    ensures { result ≡ order_at s.now at }
{
    match field_at(s, at) {
        Field::Whole {
            tag,
            start,
            len,
            next,
        } => order_of(s, tag, start, len, next),
        Field::Cut => Read::Bad,
        Field::End => Read::End,
    }
}
