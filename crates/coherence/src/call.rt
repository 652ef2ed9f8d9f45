use protocol::firing::FiringKind;
use protocol::instruction::Instruction;
use protocol::sizes::Sizes;

// A call of a round.
#[derive(Clone, Copy, PartialEq, Eq, Debug)]
pub enum Call<V> {
    // A round of these sizes, every page with this value.
    Prepare {
        sizes: Sizes,
        value: V,
    },
    // Another opening value for a page.
    Set {
        page: usize,
        value: V,
    },
    Start,
    Issue {
        station: usize,
        instruction: Instruction<V>,
    },
    // A rule is tried for a station.
    Fire {
        kind: FiringKind,
        station: usize,
    },
    Close,
    Readout {
        page: usize,
    },
}
