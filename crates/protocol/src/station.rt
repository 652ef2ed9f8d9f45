ghost use Rattle.std.specs.Prelude.{◌≡◌};
ghost use Rattle.protocol.specs.Machines.{worked, received};
ghost use Rattle.protocol.specs.Rules.{step as step_of};

use crate::cell::Cell;
use crate::deed::Deed;
use crate::instruction::Access;
use messages::message::Kind;

// What a station makes of an instruction or a message: the cell afterwards, what is sent to the home, and the deed.
#[derive(Clone, Copy, PartialEq, Eq, Debug)]
pub struct StationStep<V> {
    pub cell: Cell<V>,
    pub sends: Option<Kind<V>>,
    pub deed: Deed<V>,
}

impl<V: Copy> Cell<V> {
    // The station works an access to the page of this cell; nothing where no rule fits.
    pub fn work(self, access: Access<V>) -> Option<StationStep<V>>
        ensures { result ≡ worked self access }
    {
        match (self, access) {
            (Cell::Sh(value) | Cell::Ex(value), Access::Load) => {
                Some(self.step(None, Deed::Loaded(value)))
            }
            (Cell::Ex(_), Access::Store(value)) => Some(Cell::Ex(value).step(None, Deed::Stored)),
            (Cell::None, Access::Load) => Some(Cell::Pend.step(Some(Kind::ShReq), Deed::Asked)),
            (Cell::None | Cell::Sh(_), Access::Store(_)) => {
                Some(Cell::Pend.step(Some(Kind::ExReq), Deed::Asked))
            }
            (Cell::Pend, _) => None,
        }
    }

    // The station receives a message about the page of this cell; nothing where no rule fits.
    pub fn receive(self, kind: Kind<V>) -> Option<StationStep<V>>
        ensures { result ≡ received self kind }
    {
        match (self, kind) {
            (Cell::Pend, Kind::ShRep(value)) => Some(Cell::Sh(value).step(None, Deed::Received)),
            (Cell::Pend, Kind::ExRep(value)) => Some(Cell::Ex(value).step(None, Deed::Received)),
            (Cell::Ex(value), Kind::WbReq) => {
                Some(Cell::Sh(value).step(Some(Kind::WbRep(value)), Deed::Yielded))
            }
            (Cell::Ex(value), Kind::FlushReq) => {
                Some(Cell::None.step(Some(Kind::FlushRep(value)), Deed::Yielded))
            }
            (Cell::Sh(_), Kind::InvReq) => Some(Cell::None.step(Some(Kind::InvRep), Deed::Yielded)),
            (Cell::Pend, Kind::InvReq) => {
                Some(Cell::Pend.step(Some(Kind::InvRep), Deed::Yielded))
            }
            _ => None,
        }
    }

    // The step that leaves the cell so.
    fn step(self, sends: Option<Kind<V>>, deed: Deed<V>) -> StationStep<V>
        ensures { result ≡ step_of self sends deed }
    {
        StationStep {
            cell: self,
            sends,
            deed,
        }
    }
}
