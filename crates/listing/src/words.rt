ghost use Rattle.std.specs.Prelude.{◌≡◌, Some, refl};
ghost use Rattle.listing.specs.Words.{firing_words, meaning, Prints};

use protocol::firing::FiringKind;
use script::record::Record;
use std::fmt;
use values::answer::Answer;
use values::count::Count;
use values::kind::Value;

// A kind of value that can be listed: it says of each value what it prints.
pub trait Listed: Value + fmt::Display {
    ghost prints: { Prints Self.output };
}

impl Listed for Count {
    ghost prints = { λ _. refl };
}

impl Listed for Answer {
    ghost prints = { λ _. refl };
}

// A firing, as a listing says it.
#[derive(Clone, Copy)]
pub struct FiringWords {
    pub kind: FiringKind,
    pub station: u8,
}

impl fmt::Display for FiringWords {
    ghost output = { λ x. Some (firing_words x.kind x.station) };

    fn fmt<W: fmt::Write>(&self, f: &mut fmt::Formatter<W>) -> fmt::Result {
        let station = self.station;
        match self.kind {
            FiringKind::Work => write!(f, "station {station} works its oldest instruction"),
            FiringKind::Receive => write!(f, "station {station} receives from its down lane"),
            FiringKind::Collect => write!(
                f,
                "the home reads from the reply lane of station {station}"
            ),
            FiringKind::Serve => write!(f, "the home takes the request of station {station}"),
        }
    }
}

// A record, as a listing says it; its value in the words of its kind.
#[derive(Clone, Copy)]
pub struct Meaning<V> {
    pub record: Record<V>,
}

impl<V: Value + fmt::Display> fmt::Display for Meaning<V> {
    ghost output = { λ x. meaning V.output x.record };

    fn fmt<W: fmt::Write>(&self, f: &mut fmt::Formatter<W>) -> fmt::Result {
        match self.record {
            Record::Prepare {
                stations,
                pages,
                room,
            } => write!(f, "prepare stations {stations}, pages {pages}, room {room}"),
            Record::Set { page, value } => write!(f, "set page {page} to {value}"),
            Record::Start => write!(f, "start"),
            Record::Load { station, page } => write!(f, "station {station} is to load page {page}"),
            Record::Store {
                station,
                page,
                value,
            } => write!(f, "station {station} is to store {value} to page {page}"),
            Record::Fire { kind, station } => {
                let firing = FiringWords { kind, station };
                write!(f, "fire: {firing}")
            }
            Record::Close => write!(f, "close"),
            Record::Readout { page } => write!(f, "readout page {page}"),
        }
    }
}
