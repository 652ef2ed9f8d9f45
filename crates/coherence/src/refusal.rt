ghost use Rattle.std.specs.Prelude.{◌≡◌, Some};
ghost use Rattle.coherence.specs.Refusals.{refusal_number, refusal_words};

use std::error::Error;
use std::fmt;

// Why a call of a round was denied: the first of its questions that was answered no. Each has its number.
#[derive(Clone, Copy, PartialEq, Eq, Debug)]
pub enum Refusal {
    // Are there 1 to 16 stations?
    Stations = 1,
    // Are there 1 to 4,096 pages?
    Pages = 2,
    // Is the room of a lane 1 to 16?
    Room = 3,
    // Do tables, links and queues have exactly the round's sizes and, at prepare, does nothing wait?
    Memory = 4,
    // Is the station below the count?
    Station = 5,
    // Is the page below the count?
    Page = 6,
    // Do fewer than 8 instructions wait at the station?
    FullQueue = 7,
    // Does anything wait where the firing looks?
    NothingWaits = 8,
    // Does a rule fit?
    NoRule = 9,
    // Is every lane that the rule sends on a served station's, with space?
    NoSpace = 10,
    // Do no instruction and no message wait?
    Unfinished = 11,
}

// The number of the refusal.
impl From<Refusal> for u8 {
    ghost from_gives = { λ refusal number. number ≡ refusal_number refusal };

    fn from(refusal: Refusal) -> u8 {
        refusal as u8
    }
}

// What was found where the question was answered no, in words.
impl fmt::Display for Refusal {
    ghost output = { λ refusal. Some (refusal_words refusal) };

    fn fmt<W: fmt::Write>(&self, f: &mut fmt::Formatter<W>) -> fmt::Result {
        match self {
            Refusal::Stations => write!(f, "there are not 1 to 16 stations"),
            Refusal::Pages => write!(f, "there are not 1 to 4096 pages"),
            Refusal::Room => write!(f, "the room of a lane is not 1 to 16"),
            Refusal::Memory => write!(
                f,
                "the tables, links and queues are not of the round's sizes, or something waits at prepare"
            ),
            Refusal::Station => write!(f, "the station is not below the count"),
            Refusal::Page => write!(f, "the page is not below the count"),
            Refusal::FullQueue => write!(f, "8 instructions wait at the station"),
            Refusal::NothingWaits => write!(f, "nothing waits where the firing looks"),
            Refusal::NoRule => write!(f, "no rule fits"),
            Refusal::NoSpace => write!(
                f,
                "a lane that the rule sends on is no served station's, or has no space"
            ),
            Refusal::Unfinished => write!(f, "an instruction or a message waits"),
        }
    }
}

impl Error for Refusal {}
