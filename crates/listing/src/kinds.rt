ghost use Rattle.std.specs.Prelude.{◌≡◌, IfOk, string_bytes, Some, codes};
ghost use Rattle.listing.specs.Words.{NamesKind};
ghost use Rattle.listing.specs.Lines.{ListingAs};

use crate::lines::list;
use std::alloc::{AllocError, Global};
use std::error::Error;
use std::fmt;
use std::str::FromStr;
use values::answer::Answer;
use values::count::Count;

// The kind of the values in a script.
#[derive(Clone, Copy, PartialEq, Eq, Debug)]
pub enum ScriptKind {
    Counts,
    Answers,
}

// A name that no kind of values has.
#[derive(Clone, Copy, PartialEq, Eq, Debug)]
pub struct UnknownScriptKind;

// The kind by its name.
impl FromStr for ScriptKind {
    type Err = UnknownScriptKind;

    ghost from_str_gives = { NamesKind };

    fn from_str(name: &str) -> Result<ScriptKind, UnknownScriptKind> {
        match name {
            "counts" => Ok(ScriptKind::Counts),
            "answers" => Ok(ScriptKind::Answers),
            _ => Err(UnknownScriptKind),
        }
    }
}

impl fmt::Display for UnknownScriptKind {
    ghost output = { λ _. Some (codes "no kind of values has this name") };

    fn fmt<W: fmt::Write>(&self, f: &mut fmt::Formatter<W>) -> fmt::Result {
        write!(f, "no kind of values has this name")
    }
}

impl Error for UnknownScriptKind {}

impl ScriptKind {
    // The listing of a script whose values are of this kind.
    pub fn list(self, heap: Global, script: &[u8]) -> Result<String, AllocError>
        ensures { IfOk result (λ text. ListingAs self script.now (string_bytes text)) }
    {
        // The kind is data, and picks the instance of one generic function: no closure says that more plainly.
        match self {
            ScriptKind::Counts => list::<Count>(heap, script),
            ScriptKind::Answers => list::<Answer>(heap, script),
        }
    }
}
