ghost use Rattle.std.specs.Prelude.{◌≡◌, ◌<◌};
ghost use Rattle.std.specs.List.{slice_get};
ghost use Rattle.protocol.specs.Machines.{page_meaning};
ghost use Rattle.calls.specs.Memory.{cells_of, pages_of};
ghost use Rattle.calls.specs.Closing.{LowestWriter};
ghost use Rattle.calls.specs.Plans.{Looked};

use crate::lent::Lent;
use coherence::refusal::Refusal;
use links::lane::{Lane, Links};
use messages::message::{Kind, Message};
use protocol::cell::Cell;
use protocol::pages::HomePage;
use registers::register::Register;

impl<V: Copy, D: Register, L: Links<Message<V>>> Lent<'_, '_, V, D, L> {
    // The home's page.
    pub(crate) fn page(&self, page: usize) -> HomePage<V, D>
        requires inside { page < self.now.sizes.pages }
        ensures { (v : _) → pages_of D.names v self.now.home.now page ≡ page_meaning D.names result }
    {
        self.home[page]
    }

    // A station's cell of a page; past the counts there is no copy.
    pub(crate) fn cell(&self, station: usize, page: usize) -> Cell<V>
        ensures { result ≡ cells_of self.now.sizes.stations self.now.sizes.pages self.now.cells.now station page }
    {
        match self.sizes.place(station, page) {
            Some(at) => self.cells[at].cell(),
            None => Cell::None,
        }
    }

    // The value of the lowest station that has a writing copy of a page.
    pub(crate) fn lowest_writer(&self, page: usize) -> Option<V>
        ensures { LowestWriter (λ s. cells_of self.now.sizes.stations self.now.sizes.pages self.now.cells.now s page) result }
    {
        // The stations are numbers, so the loop has no index; of `find_map` the proof did not close.
        for station in 0..self.sizes.stations {
            if let Cell::Ex(value) = self.cell(station, page) {
                return Some(value);
            }
        }
        None
    }

    // The page and the kind of the oldest message on a lane of a station.
    pub(crate) fn oldest(&self, lane: Lane, station: usize) -> Result<(usize, Kind<V>), Refusal>
        ensures { Looked (slice_get ((L.view self.now.links.now).waiting lane station) 0) self.now.sizes.pages result }
    {
        let message = self
            .links
            .oldest(lane, station)
            .ok_or(Refusal::NothingWaits)?;
        let page = usize::from(message.page);
        if page >= self.sizes.pages {
            return Err(Refusal::Page);
        }
        Ok((page, message.kind))
    }
}
