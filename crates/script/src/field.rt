ghost use Rattle.std.specs.Prelude.{◌≡◌, ◌+◌, ◌<◌, length, drop, IfOk, IfErr};
ghost use Rattle.script.specs.Fields.{longest, Opens, one, broken, field_found, Front, after};

use crate::fault::{Fault, FaultKind};
use messages::field::split_field;

// One field of a script: its tag, its body and the byte where it begins.
#[derive(Clone, Copy)]
pub struct Field<'a> {
    pub tag: u8,
    pub body: &'a [u8],
    pub at: usize,
}

// A script that is being read, and the byte where its next field begins. The whole script stays beside the byte, because the
// contracts name both: a place is told by its byte in the script.
#[derive(Clone, Copy)]
pub struct Reader<'a> {
    pub(crate) script: &'a [u8],
    pub(crate) at: usize,
}

const LONGEST: usize = 65536;

// The bytes of a header: a tag and a length.
const HEADER: usize = 3;

// How many bytes of an input to read at the most: one more than a script may have, so that a longer one is
// told from it. It is a `u64`, as `take` of a reader wants, and `usize` has no `From` to that.
pub fn enough_bytes() -> u64
    ensures { result ≡ longest + 1 }
{
    LONGEST as u64 + 1
}

// The field at the front of what is left of a script from the byte `at` on.
fn front<'a>(left: &'a [u8], at: usize) -> Result<Field<'a>, Fault>
    requires { 0 < length left.now }
    ensures field { IfOk result (λ field. Front left.entry.now at (one field.tag field.body.now field.at)) }
    ensures fault { IfErr result (λ fault. Front left.entry.now at (broken fault)) }
{
    if left.len() < HEADER {
        return Err(FaultKind::HeaderCut.at(at));
    }
    match split_field(left) {
        Some((tag, body, _)) => Ok(Field { tag, body, at }),
        None => Err(FaultKind::BodyCut.at(at)),
    }
}

impl<'a> Reader<'a> {
    // A reader at the first byte of a script; a script too long is refused.
    pub fn new(script: &'a [u8]) -> Result<Reader<'a>, Fault>
        ensures { Opens script.now result }
    {
        if script.len() > LONGEST {
            return Err(FaultKind::TooLong.at(0));
        }
        Ok(Reader { script, at: 0 })
    }

    // The next field, or nothing at the end of the script; a fault leaves the reader where it stood.
    // It is no `Iterator`: one would not end at a fault, and a `?` on each item is no plainer than `while let` with `?`.
    pub fn next_field(&mut self) -> Result<Option<Field<'a>>, Fault>
        ensures found { Front (drop self.old.at self.old.script.now) self.old.at (field_found result) }
        ensures script { self.new.script.now ≡ self.old.script.now }
        ensures at { self.new.at ≡ self.old.at + after (field_found result) }
    {
        let script = self.script;
        if self.at >= script.len() {
            return Ok(None);
        }
        let field = front(&script[self.at..], self.at)?;
        self.at += HEADER + field.body.len();
        Ok(Some(field))
    }
}
