ghost use Rattle.std.specs.Prelude.{Some, codes};

use std::error::Error;
use std::fmt;

// The call was denied, and nothing changed.
#[derive(Clone, Copy, PartialEq, Eq, Debug)]
pub struct Denied;

impl fmt::Display for Denied {
    ghost output = { λ _. Some (codes "the call is denied") };

    fn fmt<W: fmt::Write>(&self, f: &mut fmt::Formatter<W>) -> fmt::Result {
        write!(f, "the call is denied")
    }
}

impl Error for Denied {}
