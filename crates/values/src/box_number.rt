ghost use Rattle.std.specs.Prelude.{◌≤◌};

use std::error::Error;
use std::fmt;

// The number of a ticked box, 1 to 99. It stands in a file of its own, because the definitions of
// answers name it.
#[derive(Clone, Copy, PartialEq, Eq, Debug)]
pub struct BoxNumber {
    pub number: u16,
    ghost first: { 1 ≤ number },
    ghost last: { number ≤ 99 },
}

// A number that is no box's.
#[derive(Clone, Copy, PartialEq, Eq, Debug)]
pub struct NoSuchBox {
    pub number: u16,
}

const FIRST_BOX: u16 = 1;

const LAST_BOX: u16 = 99;

// The box of that number, if a form has one.
impl TryFrom<u16> for BoxNumber {
    ghost use Rattle.values.specs.BoxNumber.{GivesBox};

    type Error = NoSuchBox;

    ghost try_from_gives = { GivesBox };

    fn try_from(number: u16) -> Result<BoxNumber, NoSuchBox> {
        if (FIRST_BOX..=LAST_BOX).contains(&number) {
            Ok(BoxNumber { number })
        } else {
            Err(NoSuchBox { number })
        }
    }
}

impl fmt::Display for NoSuchBox {
    ghost use Rattle.std.specs.Prelude.{Some};
    ghost use Rattle.values.specs.BoxNumber.{no_such_box_text};

    ghost output = { λ refused. Some (no_such_box_text refused) };

    fn fmt<W: fmt::Write>(&self, f: &mut fmt::Formatter<W>) -> fmt::Result {
        write!(f, "no box has the number {}", self.number)
    }
}

impl Error for NoSuchBox {}
