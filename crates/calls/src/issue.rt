ghost use Rattle.std.specs.Prelude.{◌≡◌};
ghost use Rattle.queues.specs.Places.{view_of};
ghost use Rattle.coherence.specs.declared.call.Call.TheVariants.{Issue};
ghost use Rattle.coherence.specs.declared.event.Event.TheVariants.{Issued};
ghost use Rattle.calls.specs.Memory.{memory};
ghost use Rattle.calls.specs.Calls.{CallAnswered};

use crate::fits::fits;
use crate::record::CellRecord;
use crate::sizes::RoundSizes;
use coherence::refusal::Refusal;
use links::lane::Links;
use messages::message::Message;
use protocol::instruction::Instruction;
use protocol::pages::HomePage;
use queues::queue::Queues;
use registers::register::Register;

// Puts an instruction behind those that wait at a station.
pub(crate) fn issue<V: Copy, D: Register, L: Links<Message<V>>>(
    sizes: RoundSizes,
    station: usize,
    instruction: Instruction<V>,
    home: &[HomePage<V, D>],
    cells: &[CellRecord<V>],
    links: &L,
    queues: &mut Queues<'_, Instruction<V>>,
) -> Result<(), Refusal>
    ensures { CallAnswered D.names sizes (memory home.now cells.now (L.view links.now) (view_of queues.old)) (memory home.now cells.now (L.view links.now) (view_of queues.new)) (Issue station instruction) (λ _. Issued station instruction) result }
{
    if !fits(sizes, home, cells, links, queues) {
        return Err(Refusal::Memory);
    }
    if station >= sizes.stations {
        return Err(Refusal::Station);
    }
    if instruction.page >= sizes.pages {
        return Err(Refusal::Page);
    }
    queues
        .put(station, instruction)
        .map_err(|_| Refusal::FullQueue)
}
