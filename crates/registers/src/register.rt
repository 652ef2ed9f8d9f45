ghost use Rattle.std.specs.Prelude.{◌≡◌, ℕ, ◌≤◌, Bool, false};
ghost use Rattle.registers.specs.Sets.{station_limit, nobody, including, without, how_many};

// How many stations there can be: their numbers are below this one.
pub const STATIONS: usize = 16;

// A set of stations. What a register names is a function of numbers, so it is a member of the trait and no `Model`.
pub trait Register: Copy {
    // The stations that the register names.
    ghost names: { Self → ℕ → Bool };

    // A register that names nobody.
    fn empty() -> Self
        ensures { names result ≡ nobody };

    // Whether the register names the station.
    fn names(self, station: usize) -> bool
        ensures { result ≡ names self station };

    // How many stations the register names.
    fn count(self) -> usize
        ensures { result ≡ how_many (names self) };

    // The register with the station too; a number above 15 is no station's and changes nothing.
    fn add(self, station: usize) -> Self
        ensures exact { names result ≡ including (names self) station };

    // The register without the station.
    fn strike(self, station: usize) -> Self
        ensures exact { names result ≡ without (names self) station };

    // A number that is no station's is never named.
    ghost high: { (register : Self) (number : ℕ) → station_limit ≤ number → names register number ≡ false };
}

// A register that names that station alone; nobody where the number is no station's.
pub fn only<R: Register>(station: usize) -> R
    ensures { R.names result ≡ including nobody station }
{
    R::empty().add(station)
}
