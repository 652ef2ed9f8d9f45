ghost use Rattle.std.specs.Prelude.{◌≡◌, ◌^◌, ◌<◌};
ghost use Rattle.std.specs.Iterator.{YieldsFirst, item_count};
ghost use Rattle.registers.specs.Sets.{how_many};
ghost use Rattle.registers.specs.Packed.{numbers, in_list};
ghost use Rattle.registers.specs.HighLemmas.{list_high};

use crate::register::{Register, STATIONS};

// A packed list of different stations, four bits for each, and how many they are. The latest stands lowest. It is a number
// with a count beside it by a rule of the project: one kind of register is a packed list of four-bit numbers.
#[derive(Clone, Copy)]
pub struct PackedRegister {
    list: u64,
    count: u8,
    ghost short: { list < 16 ^ count },
    ghost counted: { how_many (in_list count list) ≡ count },
}

impl Register for PackedRegister {
    ghost names = { λ register. in_list register.count register.list };

    ghost high = { λ register number high. list_high register.count register.list number high };

    #[tactic(auto, unfolding(crate::specs::Packed::in_list, crate::specs::Sets::how_many, crate::specs::Sets::how_many_below))]
    fn empty() -> PackedRegister {
        PackedRegister { list: 0, count: 0 }
    }

    fn names(self, station: usize) -> bool {
        self.numbers().any(|number| number == station)
    }

    fn count(self) -> usize {
        usize::from(self.count)
    }

    #[tactic(auto, using(crate::proofs::Listed::longer_list))]
    fn add(self, station: usize) -> PackedRegister {
        if station >= STATIONS || self.names(station) {
            return self;
        }
        PackedRegister {
            list: self.list * NUMBERS + station as u64,
            count: self.count + 1,
        }
    }

    #[tactic(auto, using(crate::proofs::Listed::copying))]
    fn strike(self, station: usize) -> PackedRegister {
        // A loop, because no proof is written of a `fold` whose closure calls this block's `add`.
        let mut copy = Self::empty();
        for number in self.numbers() {
            if number != station {
                copy = copy.add(number);
            }
        }
        copy
    }
}

impl PackedRegister {
    // The stations' numbers, the latest first.
    fn numbers(self) -> Numbers
        ensures { numbers result.count result.list ≡ numbers self.count self.list }
    {
        Numbers {
            list: self.list,
            count: self.count,
        }
    }
}

// How many four-bit numbers there are.
const NUMBERS: u64 = 16;

// The numbers of a packed list that are still to come.
#[derive(Drop)]
struct Numbers {
    list: u64,
    count: u8,
}

impl Iterator for Numbers {
    type Item = usize;

    ghost next_gives = { YieldsFirst (λ left. numbers left.count left.list) };

    ghost remaining = { item_count (λ left. numbers left.count left.list) };

    fn next(&mut self) -> Option<usize> {
        self.count = self.count.checked_sub(1)?;
        let first = self.list % NUMBERS;
        self.list /= NUMBERS;
        Some(first as usize)
    }
}
