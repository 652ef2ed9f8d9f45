ghost use Rattle.std.specs.Prelude.{◌≡◌};
ghost use Rattle.queues.specs.Places.{view_of};
ghost use Rattle.coherence.specs.declared.call.Call.TheVariants.{Set};
ghost use Rattle.coherence.specs.declared.event.Event.TheVariants.{Set as WasSet};
ghost use Rattle.calls.specs.Memory.{memory};
ghost use Rattle.calls.specs.Calls.{CallAnswered};

use crate::fits::fits;
use crate::record::CellRecord;
use crate::sizes::RoundSizes;
use coherence::refusal::Refusal;
use links::lane::Links;
use messages::message::Message;
use protocol::instruction::Instruction;
use protocol::pages::HomePage;
use queues::queue::Queues;
use registers::register::Register;

// Gives a page another opening value.
pub(crate) fn set<V: Copy, D: Register, L: Links<Message<V>>>(
    sizes: RoundSizes,
    page: usize,
    value: V,
    home: &mut [HomePage<V, D>],
    cells: &[CellRecord<V>],
    links: &L,
    queues: &Queues<'_, Instruction<V>>,
) -> Result<(), Refusal>
    ensures { CallAnswered D.names sizes (memory home.old cells.now (L.view links.now) (view_of queues.now)) (memory home.new cells.now (L.view links.now) (view_of queues.now)) (Set page value) (λ _. WasSet page value) result }
{
    if !fits(sizes, home, cells, links, queues) {
        return Err(Refusal::Memory);
    }
    if page >= sizes.pages {
        return Err(Refusal::Page);
    }
    home[page].value = value;
    Ok(())
}
