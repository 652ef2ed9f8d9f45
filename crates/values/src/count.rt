ghost use Rattle.std.specs.Prelude.{Some, decimal};
ghost use Rattle.values.specs.Count.{count_bytes, count_reads};
ghost use Rattle.std.proofs.Common.{rules};

use crate::buffer::{TooShort, put_front};
use crate::kind::Value;
use std::fmt;

// A count of forms or of people: 0 to 4,294,967,295.
#[derive(Clone, Copy, PartialEq, Eq, Debug)]
pub struct Count {
    pub number: u32,
}

const WIDTH: usize = 4;

impl Value for Count {
    ghost width = { 4 };

    ghost bytes = { count_bytes };

    ghost reads = { count_reads };

    ghost narrow = { Prim.search rules };

    ghost fixed = { Prim.search rules };

    ghost back = { Prim.search rules };

    ghost only = { Prim.search rules };

    fn width() -> usize {
        WIDTH
    }

    fn write(&self, out: &mut [u8]) -> Result<usize, TooShort> {
        put_front(&self.number.to_be_bytes(), out)
    }

    fn read(from: &[u8]) -> Option<Count> {
        let [a, b, c, d] = from else {
            return None;
        };
        Some(Count {
            number: u32::from_be_bytes([*a, *b, *c, *d]),
        })
    }
}

impl fmt::Display for Count {
    ghost output = { λ c. Some (decimal c.number) };

    fn fmt<W: fmt::Write>(&self, f: &mut fmt::Formatter<W>) -> fmt::Result {
        write!(f, "{}", self.number)
    }
}
