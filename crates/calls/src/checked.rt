ghost use Rattle.calls.specs.Preparing.{SizesAnswered, Placed};

use crate::sizes::RoundSizes;
use coherence::refusal::Refusal;
use protocol::sizes::Sizes;
use registers::register::STATIONS;

// The most pages that a round can have, and the most room on a lane. Links keep the bound of a room for themselves.
const PAGES: usize = 4096;

const ROOM: usize = 16;

// The sizes of a round, or the first question about them that is answered no.
impl TryFrom<Sizes> for RoundSizes {
    type Error = Refusal;

    ghost try_from_gives = { SizesAnswered };

    fn try_from(sizes: Sizes) -> Result<RoundSizes, Refusal> {
        let Sizes {
            stations,
            pages,
            room,
        } = sizes;
        if !(1..=STATIONS).contains(&stations) {
            return Err(Refusal::Stations);
        }
        if !(1..=PAGES).contains(&pages) {
            return Err(Refusal::Pages);
        }
        if !(1..=ROOM).contains(&room) {
            return Err(Refusal::Room);
        }
        Ok(RoundSizes {
            stations,
            pages,
            room,
        })
    }
}

impl RoundSizes {
    // Where the cell of a station and a page lies in the table of cells, if the round has them.
    pub(crate) fn place(self, station: usize, page: usize) -> Option<usize>
        ensures { Placed self station page result }
    {
        if station < self.stations && page < self.pages {
            Some(station * self.pages + page)
        } else {
            None
        }
    }
}
