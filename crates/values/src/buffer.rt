ghost use Rattle.std.specs.Prelude.{◌≡◌, Some, codes};
ghost use Rattle.values.specs.Writing.{answered, written};

use std::error::Error;
use std::fmt;

// The buffer has fewer bytes than were to be written.
#[derive(Clone, Copy, PartialEq, Eq, Debug)]
pub struct TooShort;

impl fmt::Display for TooShort {
    ghost output = { λ _. Some (codes "the buffer is too short") };

    fn fmt<W: fmt::Write>(&self, f: &mut fmt::Formatter<W>) -> fmt::Result {
        write!(f, "the buffer is too short")
    }
}

impl Error for TooShort {}

// Writes the bytes at the front of `out` and says how many; a buffer too short is left as it was.
pub fn put_front(bytes: &[u8], out: &mut [u8]) -> Result<usize, TooShort>
    ensures answer { result ≡ answered bytes.now out.old }
    ensures buffer { out.new ≡ written bytes.now out.old }
{
    let size = bytes.len();
    if out.len() < size {
        return Err(TooShort);
    }
    out[0..size].copy_from_slice(bytes);
    Ok(size)
}
