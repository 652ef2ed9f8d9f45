ghost use Rattle.std.specs.Prelude.{◌≡◌};
ghost use Rattle.queues.specs.Places.{view_of};
ghost use Rattle.coherence.specs.declared.call.Call.TheVariants.{Readout};
ghost use Rattle.coherence.specs.declared.event.Event.TheVariants.{ReadOut};
ghost use Rattle.calls.specs.Memory.{memory};
ghost use Rattle.calls.specs.Calls.{CallAnswered};

use crate::fits::fits;
use crate::lent::Lent;
use crate::record::CellRecord;
use crate::sizes::RoundSizes;
use coherence::refusal::Refusal;
use links::lane::Links;
use messages::message::Message;
use protocol::instruction::Instruction;
use protocol::pages::HomePage;
use queues::queue::Queues;
use registers::register::Register;

// The value of a page: that of the lowest station with a writing copy, else the home's.
pub(crate) fn readout<V: Copy, D: Register, L: Links<Message<V>>>(
    sizes: RoundSizes,
    page: usize,
    home: &[HomePage<V, D>],
    cells: &[CellRecord<V>],
    links: &L,
    queues: &Queues<'_, Instruction<V>>,
) -> Result<V, Refusal>
    ensures { CallAnswered D.names sizes (memory home.now cells.now (L.view links.now) (view_of queues.now)) (memory home.now cells.now (L.view links.now) (view_of queues.now)) (Readout page) (λ w. ReadOut page w) result }
{
    if !fits(sizes, home, cells, links, queues) {
        return Err(Refusal::Memory);
    }
    if page >= sizes.pages {
        return Err(Refusal::Page);
    }
    let lent = Lent {
        sizes,
        home,
        cells,
        links,
        queues,
    };
    match lent.lowest_writer(page) {
        Some(value) => Ok(value),
        None => Ok(lent.page(page).value),
    }
}
