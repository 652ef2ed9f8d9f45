ghost use Rattle.std.specs.Prelude.{◌≡◌};

use crate::deed::Deed;
use messages::message::Kind;

// Whom a home page names: readers (R), the one writer (W), readers whose copies are recalled (TR), or the writer whose
// copy is recalled (TW).
#[derive(Clone, Copy, PartialEq, Eq, Debug)]
pub enum HomeState<D> {
    R(D),
    W(usize),
    TR(D),
    TW(usize),
}

#[derive(Clone, Copy, PartialEq, Eq, Debug)]
pub struct HomePage<V, D> {
    pub value: V,
    pub state: HomeState<D>,
}

// What the home sends: nothing, a message to one station, or the same message to each station of a register.
// Nothing is a case and no Option around the others, since each rule says in one word what is sent.
#[derive(Clone, Copy, PartialEq, Eq, Debug)]
pub enum Sends<V, D> {
    Nothing,
    To(usize, Kind<V>),
    ToAll(D, Kind<V>),
}

// What the home makes of a message: the page afterwards, what is sent, and the deed.
#[derive(Clone, Copy, PartialEq, Eq, Debug)]
pub struct HomeStep<V, D> {
    pub page: HomePage<V, D>,
    pub sends: Sends<V, D>,
    pub deed: Deed<V>,
}

impl<V, D> HomePage<V, D> {
    pub(crate) fn new(value: V, state: HomeState<D>) -> HomePage<V, D>
        ensures { result ≡ record { value = value; state = state } }
    {
        HomePage { value, state }
    }

    // The step that leaves the page so.
    pub(crate) fn step(self, sends: Sends<V, D>, deed: Deed<V>) -> HomeStep<V, D>
        ensures { result ≡ record { page = self; sends = sends; deed = deed } }
    {
        HomeStep {
            page: self,
            sends,
            deed,
        }
    }
}
