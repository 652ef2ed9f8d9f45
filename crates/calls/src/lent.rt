ghost use Rattle.std.specs.Prelude.{◌≡◌, ◌*◌, length};

use crate::record::CellRecord;
use crate::sizes::RoundSizes;
use links::lane::Links;
use messages::message::Message;
use protocol::instruction::Instruction;
use protocol::pages::HomePage;
use queues::queue::Queues;

// The memory that a round is lent, to look at, where it has exactly the round's sizes. It stands in a file of its own,
// because the definitions that its methods cite name it.
#[derive(Drop)]
pub(crate) struct Lent<'a, 'q, V: Copy, D, L: Links<Message<V>>> {
    pub(crate) sizes: RoundSizes,
    pub(crate) home: &'a [HomePage<V, D>],
    pub(crate) cells: &'a [CellRecord<V>],
    pub(crate) links: &'a L,
    pub(crate) queues: &'a Queues<'q, Instruction<V>>,
    ghost pages: { length home.now ≡ sizes.pages },
    ghost whole: { length cells.now ≡ sizes.stations * sizes.pages },
    ghost count: { (L.view links.now).count ≡ sizes.stations },
    ghost room: { (L.view links.now).room ≡ sizes.room },
}
