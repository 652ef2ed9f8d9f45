use crate::call::Call;
use crate::refusal::Refusal;
use protocol::deed::Deed;
use protocol::firing::FiringKind;
use protocol::instruction::Instruction;
use protocol::sizes::Sizes;

// A call together with its answer: what each granted call did, or which call was denied and why.
#[derive(Clone, Copy, PartialEq, Eq, Debug)]
pub enum Event<V> {
    Prepared {
        sizes: Sizes,
        value: V,
    },
    Set {
        page: usize,
        value: V,
    },
    Started,
    Issued {
        station: usize,
        instruction: Instruction<V>,
    },
    Fired {
        kind: FiringKind,
        station: usize,
        page: usize,
        deed: Deed<V>,
    },
    Closed,
    ReadOut {
        page: usize,
        value: V,
    },
    Denied {
        call: Call<V>,
        refusal: Refusal,
    },
}
