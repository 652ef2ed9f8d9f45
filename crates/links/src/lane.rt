ghost use Rattle.std.specs.Prelude.{◌≡◌, length};
ghost use Rattle.std.specs.List.{slice_get};
ghost use Rattle.queues.specs.View.{granted_if};
ghost use Rattle.links.specs.View.{LaneView, Sound, has_space, sent, some_wait, dropped};

use queues::denied::Denied;

// The lanes of a station: its requests to the home, its replies to the home, and all that the home sends down to it. The
// number of a lane is that of its row among the station's.
#[derive(Clone, Copy, PartialEq, Eq, Debug)]
pub enum Lane {
    Request = 0,
    Reply = 1,
    Down = 2,
}

// Three lanes of waiting messages for each of a number of stations. What links mean is `view`.
pub trait Links<Item: Copy> {
    ghost view: { Self → LaneView Item };

    // What holds of all links.
    ghost sound: { (links : Self) → Sound (view links) };

    // How many stations are served: those from 0 up to it.
    fn count(&self) -> usize
        ensures { result ≡ (view self.now).count };

    // How many messages each lane has room for.
    fn room(&self) -> usize
        ensures { result ≡ (view self.now).room };

    // How many messages wait on a lane.
    fn waiting(&self, lane: Lane, station: usize) -> usize
        ensures { result ≡ length ((view self.now).waiting lane station) };

    // The oldest message of a lane, if one waits.
    fn oldest(&self, lane: Lane, station: usize) -> Option<Item>
        ensures { result ≡ slice_get ((view self.now).waiting lane station) 0 };

    // Puts a message last on a lane; denied where the lane has no space or the station is not served.
    fn send(&mut self, lane: Lane, station: usize, message: Item) -> Result<(), Denied>
        ensures answer { result ≡ granted_if (has_space (view self.old) lane station) }
        ensures after { view self.new ≡ sent (view self.old) lane station message };

    // Drops the oldest message of a lane; denied where nothing waits.
    fn drop_oldest(&mut self, lane: Lane, station: usize) -> Result<(), Denied>
        ensures answer { result ≡ granted_if (some_wait (view self.old) lane station) }
        ensures after { view self.new ≡ dropped (view self.old) lane station };
}
