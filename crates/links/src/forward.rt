ghost use Rattle.std.specs.Prelude.{◌≡◌};
ghost use Rattle.queues.specs.View.{granted_if};
ghost use Rattle.links.specs.View.{can_forward, forwarded};

use crate::lane::{Lane, Links};
use queues::denied::Denied;

// Passes the oldest message of one lane of a station on to another; denied where none waits or there is no space.
pub fn forward<M: Copy, L: Links<M>>(
    links: &mut L,
    from: Lane,
    to: Lane,
    station: usize,
) -> Result<(), Denied>
    ensures answer { result ≡ granted_if (can_forward (L.view links.old) from to station) }
    ensures after { L.view links.new ≡ forwarded (L.view links.old) from to station }
{
    let message = links.oldest(from, station).ok_or(Denied)?;
    links.send(to, station, message)?;
    links.drop_oldest(from, station)
}
