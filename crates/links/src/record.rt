ghost use Rattle.std.specs.Prelude.{◌≡◌, length};
ghost use Rattle.queues.specs.Places.{view_of};
ghost use Rattle.links.specs.View.{made};
ghost use Rattle.links.specs.Lanes.{lanes_of};
ghost use Rattle.links.specs.Sound.{table_sound};

use crate::lane::{Lane, Links};
use crate::rows::{LANES, row, sizes};
use messages::message::Message;
use queues::denied::Denied;
use queues::queue::Queues;

// Links over a lent slice of messages: queues with a row for each lane of each station.
impl<V: Copy> Links<Message<V>> for Queues<'_, Message<V>> {
    ghost view = { λ q. lanes_of (view_of q) };

    ghost sound = { λ q. table_sound q.entries.now q.table };

    fn count(&self) -> usize {
        self.rows() / LANES
    }

    fn room(&self) -> usize {
        self.places()
    }

    fn waiting(&self, lane: Lane, station: usize) -> usize {
        let Some(row) = row(self.rows(), lane, station) else {
            return 0;
        };
        Queues::waiting(self, row)
    }

    fn oldest(&self, lane: Lane, station: usize) -> Option<Message<V>> {
        let row = row(self.rows(), lane, station)?;
        Queues::oldest(self, row)
    }

    fn send(&mut self, lane: Lane, station: usize, message: Message<V>) -> Result<(), Denied> {
        let row = row(self.rows(), lane, station).ok_or(Denied)?;
        self.put(row, message)
    }

    fn drop_oldest(&mut self, lane: Lane, station: usize) -> Result<(), Denied> {
        let row = row(self.rows(), lane, station).ok_or(Denied)?;
        Queues::drop_oldest(self, row)
    }
}

// Links over these messages, in which nothing waits, whatever the slice held; they serve no station where the sizes do
// not fit. They need three messages for each station and place of a lane.
pub fn record_links<'a, V: Copy>(
    entries: &'a mut [Message<V>],
    stations: usize,
    room: usize,
) -> Queues<'a, Message<V>>
    ensures { lanes_of (view_of result) ≡ made (length entries.old) 1 stations room }
{
    // Queues of no rows serve no station.
    let (rows, places) = sizes(stations, room).unwrap_or((0, 0));
    Queues::new(entries, rows, places)
}
