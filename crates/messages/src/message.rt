ghost use Rattle.std.specs.Prelude.{◌≡◌};
ghost use Rattle.std.specs.Option.{option_map};
ghost use Rattle.messages.specs.Bytes.{kind_number, value_of, number_and_value};
ghost use Rattle.messages.specs.Reading.{Reads};

// What a message asks or answers about its page. A station asks to share it or to have it alone (Sh, Ex);
// the home asks for it to be written back and kept, written back and given up, or given up (Wb, Flush,
// Inv). A reply that brings the page's value holds it.
#[derive(Clone, Copy, PartialEq, Eq, Debug)]
pub enum Kind<V> {
    ShReq,
    ExReq,
    ShRep(V),
    ExRep(V),
    WbReq,
    FlushReq,
    InvReq,
    WbRep(V),
    FlushRep(V),
    InvRep,
}

// A message about one page. The page stands apart from the kind, since every message has one.
#[derive(Clone, Copy, PartialEq, Eq, Debug)]
pub struct Message<V> {
    pub page: u16,
    pub kind: Kind<V>,
}

// The number of each kind. Constants, because they are both written and matched; an enum of the kinds without a value
// would need a third match of ten, from the byte.
const SH_REQ: u8 = 1;

const EX_REQ: u8 = 2;

const SH_REP: u8 = 3;

const EX_REP: u8 = 4;

const WB_REQ: u8 = 5;

const FLUSH_REQ: u8 = 6;

const INV_REQ: u8 = 7;

const WB_REP: u8 = 8;

const FLUSH_REP: u8 = 9;

const INV_REP: u8 = 10;

impl<V> Kind<V> {
    // The number that stands for the kind in bytes.
    pub fn number(&self) -> u8
        ensures { result ≡ kind_number self.now }
    {
        match self {
            Kind::ShReq => SH_REQ,
            Kind::ExReq => EX_REQ,
            Kind::ShRep(_) => SH_REP,
            Kind::ExRep(_) => EX_REP,
            Kind::WbReq => WB_REQ,
            Kind::FlushReq => FLUSH_REQ,
            Kind::InvReq => INV_REQ,
            Kind::WbRep(_) => WB_REP,
            Kind::FlushRep(_) => FLUSH_REP,
            Kind::InvRep => INV_REP,
        }
    }

    // The value that a message of this kind brings, if any.
    pub fn value(&self) -> Option<&V>
        ensures { option_map (λ x. x.now) result ≡ value_of self.now }
    {
        match self {
            Kind::ShRep(value) | Kind::ExRep(value) | Kind::WbRep(value) | Kind::FlushRep(value) =>
                Some(value),
            _ => None,
        }
    }
}

impl<V: Copy> Kind<V> {
    // The kind that has this number and this value, if there is one. A `TryFrom` of the pair would be no plainer.
    pub(crate) fn from_parts(number: u8, value: Option<V>) -> Option<Kind<V>>
        ensures { Reads number_and_value (number, value) result }
    {
        match (number, value) {
            (SH_REQ, None) => Some(Kind::ShReq),
            (EX_REQ, None) => Some(Kind::ExReq),
            (SH_REP, Some(value)) => Some(Kind::ShRep(value)),
            (EX_REP, Some(value)) => Some(Kind::ExRep(value)),
            (WB_REQ, None) => Some(Kind::WbReq),
            (FLUSH_REQ, None) => Some(Kind::FlushReq),
            (INV_REQ, None) => Some(Kind::InvReq),
            (WB_REP, Some(value)) => Some(Kind::WbRep(value)),
            (FLUSH_REP, Some(value)) => Some(Kind::FlushRep(value)),
            (INV_REP, None) => Some(Kind::InvRep),
            _ => None,
        }
    }
}
