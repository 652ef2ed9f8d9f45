ghost use Rattle.std.specs.Prelude.{◌≡◌, length};
ghost use Rattle.messages.specs.Bytes.{max_size};
ghost use Rattle.links.specs.View.{made};
ghost use Rattle.links.specs.Slots.{slots, served, byte_view};
ghost use Rattle.links.specs.Sound.{served_sound};

use crate::lane::{Lane, Links};
use crate::rows::{LANES, row, sizes};
use crate::slot::{read_slot, slot_count, write_slot};
use messages::message::Message;
use queues::denied::Denied;
use queues::table::Table;
use values::kind::Value;

// Links over lent bytes: each message stands encoded in a slot of the memory, and the table says in which slots the
// messages of each lane wait.
// Record links and byte links are to be two implementations of one trait, so the lines that ask for a row stand in both.
#[derive(Drop)]
pub struct ByteLinks<'a> {
    memory: &'a mut [u8],
    table: Table,
}

impl ByteLinks<'_> {
    // How many rows there are slots for: all of the table's, or none where slots for this kind of value are too few. The
    // kind is no part of the type, so that the same links can be asked for any kind; so each call counts the slots.
    #[tactic(auto, using(crate::proofs::Tabled::rows_served))]
    fn rows<V: Value>(&self) -> usize
        ensures { result ≡ (served (slots V.bytes V.reads V.width self.now.memory.now) self.now.table).rows }
    {
        self.table.rows_over(slot_count::<V>(self.memory.len()))
    }
}

impl<V: Value> Links<Message<V>> for ByteLinks<'_> {
    ghost view = { byte_view V.Value.bytes V.Value.reads V.Value.width };

    ghost sound = { λ b. served_sound (slots V.Value.bytes V.Value.reads V.Value.width b.memory.now) b.table };

    fn count(&self) -> usize {
        self.rows::<V>() / LANES
    }

    fn room(&self) -> usize {
        self.table.places()
    }

    #[tactic(auto, using(crate::proofs::Tabled::lane_waits))]
    fn waiting(&self, lane: Lane, station: usize) -> usize {
        let Some(row) = row(self.rows::<V>(), lane, station) else {
            return 0;
        };
        self.table.waiting(row)
    }

    #[tactic(auto, using(crate::proofs::Tabled::lane_oldests))]
    fn oldest(&self, lane: Lane, station: usize) -> Option<Message<V>> {
        let row = row(self.rows::<V>(), lane, station)?;
        let place = self.table.oldest(row)?;
        Some(read_slot(self.memory, place))
    }

    #[tactic(auto, using(crate::proofs::Tabled::lane_sends))]
    fn send(&mut self, lane: Lane, station: usize, message: Message<V>) -> Result<(), Denied> {
        let row = row(self.rows::<V>(), lane, station).ok_or(Denied)?;
        let place = self.table.take_next(row)?;
        write_slot(self.memory, place, &message);
        Ok(())
    }

    #[tactic(auto, using(crate::proofs::Tabled::lane_drops))]
    fn drop_oldest(&mut self, lane: Lane, station: usize) -> Result<(), Denied> {
        let row = row(self.rows::<V>(), lane, station).ok_or(Denied)?;
        self.table.give_up_oldest(row)
    }
}

// Links over these bytes, in which nothing waits, whatever the memory held; they serve no station where the sizes do not
// fit. They need three slots for each station and place of a lane.
pub fn byte_links<'a, V: Value>(memory: &'a mut [u8], stations: usize, room: usize) -> ByteLinks<'a>
    ensures { byte_view V.bytes V.reads V.width result ≡ made (length memory.old) (max_size V.width) stations room }
{
    // A table of no rows serves no station.
    let (rows, places) = sizes(stations, room).unwrap_or((0, 0));
    let table = Table::new(slot_count::<V>(memory.len()), rows, places);
    ByteLinks { memory, table }
}
