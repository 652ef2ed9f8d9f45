ghost use Rattle.std.specs.Prelude.{◌≡◌, Some, ◌++◌, codes, decimal};
ghost use Rattle.protocol.specs.Firings.{firing_number, ReadsAsFiring};

use std::error::Error;
use std::fmt;

// The four kinds of firing by their numbers, each tried for one station.
#[derive(Clone, Copy, PartialEq, Eq, Debug)]
pub enum FiringKind {
    // The station works its oldest instruction.
    Work = 1,
    // The station receives from its down lane.
    Receive = 2,
    // The home reads from the station's reply lane.
    Collect = 3,
    // The home takes the station's request.
    Serve = 4,
}

// The same numbers, for the match that reads them.
const WORK: u8 = FiringKind::Work as u8;

const RECEIVE: u8 = FiringKind::Receive as u8;

const COLLECT: u8 = FiringKind::Collect as u8;

const SERVE: u8 = FiringKind::Serve as u8;

// A number that no kind of firing has.
#[derive(Clone, Copy, PartialEq, Eq, Debug)]
pub struct UnknownFiring(pub u8);

impl From<FiringKind> for u8 {
    ghost from_gives = { λ kind number. number ≡ firing_number kind };

    fn from(kind: FiringKind) -> u8 {
        kind as u8
    }
}

impl TryFrom<u8> for FiringKind {
    type Error = UnknownFiring;

    ghost try_from_gives = { ReadsAsFiring };

    fn try_from(number: u8) -> Result<FiringKind, UnknownFiring> {
        match number {
            WORK => Ok(FiringKind::Work),
            RECEIVE => Ok(FiringKind::Receive),
            COLLECT => Ok(FiringKind::Collect),
            SERVE => Ok(FiringKind::Serve),
            _ => Err(UnknownFiring(number)),
        }
    }
}

impl fmt::Display for UnknownFiring {
    ghost output = { λ unknown. Some (codes "no kind of firing has the number " ++ decimal unknown.0) };

    fn fmt<W: fmt::Write>(&self, f: &mut fmt::Formatter<W>) -> fmt::Result {
        let number = self.0;
        write!(f, "no kind of firing has the number {number}")
    }
}

impl Error for UnknownFiring {}
