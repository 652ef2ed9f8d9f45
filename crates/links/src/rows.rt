ghost use Rattle.std.specs.Prelude.{◌≡◌};
ghost use Rattle.links.specs.Lanes.{row_of, sizes_of};

use crate::lane::Lane;

// The most stations that links serve, and the most messages that a lane has room for. A register names as many stations;
// links know nothing of registers, so the number stands here too.
const MOST_STATIONS: usize = 16;

const MOST_ROOM: usize = 16;

// How many rows each station has: one for each lane.
pub(crate) const LANES: usize = 3;

// The row of a station's lane, where there are so many rows; none for a station that is not served.
pub(crate) fn row(rows: usize, lane: Lane, station: usize) -> Option<usize>
    ensures { result ≡ row_of rows lane station }
{
    if station >= rows / LANES {
        return None;
    }
    Some(station * LANES + lane as usize)
}

// The rows of links of these sizes, and the places of each; none where links may not have the sizes.
pub(crate) fn sizes(stations: usize, room: usize) -> Option<(usize, usize)>
    ensures { result ≡ sizes_of stations room }
{
    if (1..=MOST_STATIONS).contains(&stations) && (1..=MOST_ROOM).contains(&room) {
        Some((stations * LANES, room))
    } else {
        None
    }
}
