ghost use Rattle.std.specs.Prelude.{◌≡◌};
ghost use Rattle.queues.specs.Places.{view_of};
ghost use Rattle.coherence.specs.declared.call.Call.TheVariants.{Close};
ghost use Rattle.coherence.specs.declared.event.Event.TheVariants.{Closed};
ghost use Rattle.calls.specs.Memory.{memory};
ghost use Rattle.calls.specs.Calls.{CallAnswered};

use crate::fits::fits;
use crate::idle::all_idle;
use crate::record::CellRecord;
use crate::sizes::RoundSizes;
use coherence::refusal::Refusal;
use links::lane::Links;
use messages::message::Message;
use protocol::instruction::Instruction;
use protocol::pages::HomePage;
use queues::queue::Queues;
use registers::register::Register;

// Whether the round may close: nothing waits.
pub(crate) fn close<V: Copy, D: Register, L: Links<Message<V>>>(
    sizes: RoundSizes,
    home: &[HomePage<V, D>],
    cells: &[CellRecord<V>],
    links: &L,
    queues: &Queues<'_, Instruction<V>>,
) -> Result<(), Refusal>
    ensures { CallAnswered D.names sizes (memory home.now cells.now (L.view links.now) (view_of queues.now)) (memory home.now cells.now (L.view links.now) (view_of queues.now)) Close (λ _. Closed) result }
{
    if !fits(sizes, home, cells, links, queues) {
        return Err(Refusal::Memory);
    }
    if !all_idle(links, queues) {
        return Err(Refusal::Unfinished);
    }
    Ok(())
}
