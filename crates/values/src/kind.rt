ghost use Rattle.std.specs.Prelude.{◌≡◌, ℕ, ◌≤◌, List, length, Some, Option};
ghost use Rattle.std.specs.Int.Digits.{AllBelowBase};
ghost use Rattle.values.specs.Writing.{answered, written};

use crate::buffer::TooShort;

// A kind of page value: each value has a byte form, as wide as every other of its kind.
pub trait Value: Copy {
    // How many bytes every value of the kind has.
    ghost width: { ℕ };

    // The bytes of a value.
    ghost bytes: { Self → List ℕ };

    // The value that these bytes read as, if they read as one.
    ghost reads: { List ℕ → Option Self };

    // The width of the kind.
    fn width() -> usize
        ensures { result ≡ width };

    // Writes the value's bytes at the front of `out` and says how many; a buffer too short is left as it was.
    fn write(&self, out: &mut [u8]) -> Result<usize, TooShort>
        ensures answer { result ≡ answered (bytes self.now) out.old }
        ensures buffer { out.new ≡ written (bytes self.now) out.old };

    // The value whose bytes these are, if there is one.
    fn read(from: &[u8]) -> Option<Self>
        ensures { result ≡ reads from.now };

    ghost narrow: { width ≤ 65535 };

    ghost fixed: { (x : Self) → length (bytes x) ≡ width };

    ghost back: { (x : Self) → reads (bytes x) ≡ Some x };

    ghost only: { (bs : List ℕ) (x : Self) → AllBelowBase 256 bs → reads bs ≡ Some x → bytes x ≡ bs };
}
