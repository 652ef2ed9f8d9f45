ghost use Rattle.std.specs.Prelude.{◌≡◌, ℕ, ◌*◌, length};
ghost use Rattle.queues.specs.Places.{view_of};
ghost use Rattle.calls.specs.Memory.{memory, tables_fit, links_fit, queues_fit, fitting};

use crate::record::CellRecord;
use crate::sizes::RoundSizes;
use links::lane::Links;
use messages::message::Message;
use protocol::instruction::Instruction;
use protocol::pages::HomePage;
use queues::queue::Queues;
use registers::register::Register;

// How many instructions can wait at a station.
const PLACES: usize = 8;

fn tables_fit<V: Copy, D: Register>(
    sizes: RoundSizes,
    home: &[HomePage<V, D>],
    cells: &[CellRecord<V>],
) -> bool
    ensures { result ≡ tables_fit sizes home.now cells.now }
{
    let most = sizes.stations * sizes.pages;
    home.len() == sizes.pages && cells.len() == most
}

fn links_fit<V: Copy, L: Links<Message<V>>>(sizes: RoundSizes, links: &L) -> bool
    ensures { result ≡ links_fit sizes (L.view links.now) }
{
    links.count() == sizes.stations && links.room() == sizes.room
}

fn queues_fit<V: Copy>(sizes: RoundSizes, queues: &Queues<'_, Instruction<V>>) -> bool
    ensures { result ≡ queues_fit sizes (view_of queues.now) }
{
    queues.rows() == sizes.stations && queues.places() == PLACES
}

// Whether tables, links and queues have exactly the round's sizes; each call makes its own refusal of a no, in its order of
// questions. They are handed over one by one, here and by each call: a struct that holds all four as `&mut` was tried, and
// a caller that makes one of what it was lent itself is not proved. One of `&` would serve only the calls that write nothing.
pub(crate) fn fits<V: Copy, D: Register, L: Links<Message<V>>>(
    sizes: RoundSizes,
    home: &[HomePage<V, D>],
    cells: &[CellRecord<V>],
    links: &L,
    queues: &Queues<'_, Instruction<V>>,
) -> bool
    ensures { result ≡ fitting sizes (memory home.now cells.now (L.view links.now) (view_of queues.now)) }
{
    tables_fit(sizes, home, cells) && links_fit(sizes, links) && queues_fit(sizes, queues)
}
