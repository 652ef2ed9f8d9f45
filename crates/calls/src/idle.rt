ghost use Rattle.std.specs.Prelude.{◌≡◌, ℕ, [], Decides};
ghost use Rattle.queues.specs.Places.{view_of};

use links::lane::{Lane, Links};
use messages::message::Message;
use protocol::instruction::Instruction;
use queues::queue::Queues;

// Whether no message waits on the three lanes of a station.
fn lanes_idle<V: Copy, L: Links<Message<V>>>(links: &L, station: usize) -> bool
    ensures { Decides result ((lane : Lane) → (L.view links.now).waiting lane station ≡ []) }
{
    [Lane::Request, Lane::Reply, Lane::Down]
        .iter()
        .all(|lane| links.waiting(*lane, station) == 0)
}

// Whether no message waits on any lane.
fn links_idle<V: Copy, L: Links<Message<V>>>(links: &L) -> bool
    ensures { Decides result ((lane : Lane) (s : ℕ) → (L.view links.now).waiting lane s ≡ []) }
{
    (0..links.count()).all(|station| lanes_idle(links, station))
}

// Whether no instruction waits in any row.
fn queues_idle<V: Copy>(queues: &Queues<'_, Instruction<V>>) -> bool
    ensures { Decides result ((s : ℕ) → (view_of queues.now).row s ≡ []) }
{
    (0..queues.rows()).all(|station| queues.waiting(station) == 0)
}

// Whether no instruction and no message waits anywhere.
pub(crate) fn all_idle<V: Copy, L: Links<Message<V>>>(
    links: &L,
    queues: &Queues<'_, Instruction<V>>,
) -> bool
    ensures { Decides result (((s : ℕ) → (view_of queues.now).row s ≡ []) × ((lane : Lane) (s : ℕ) → (L.view links.now).waiting lane s ≡ [])) }
{
    queues_idle(queues) && links_idle(links)
}
