ghost use Rattle.std.specs.Prelude.{◌≡◌};
ghost use Rattle.registers.specs.Bits.{in_bits, bit_of};
ghost use Rattle.registers.specs.HighLemmas.{bits_high};

use crate::register::{Register, STATIONS};

// A bit for each station.
#[derive(Clone, Copy)]
pub struct BitRegister {
    bits: u16,
}

// The bit of the station; no bit is set where the number is no station's, so that no caller asks first.
fn bit(station: usize) -> u16
    ensures { result ≡ bit_of station }
{
    if station < STATIONS { 1 << station } else { 0 }
}

#[tactic(auto, using(crate::proofs::Bitwise::station_bits))]
impl Register for BitRegister {
    ghost names = { λ register. in_bits register.bits };

    ghost high = { λ register number high. bits_high register.bits number high };

    fn empty() -> BitRegister {
        BitRegister { bits: 0 }
    }

    fn names(self, station: usize) -> bool {
        self.bits & bit(station) != 0
    }

    fn count(self) -> usize {
        self.bits.count_ones() as usize
    }

    fn add(self, station: usize) -> BitRegister {
        BitRegister {
            bits: self.bits | bit(station),
        }
    }

    fn strike(self, station: usize) -> BitRegister {
        BitRegister {
            bits: self.bits & !bit(station),
        }
    }
}
