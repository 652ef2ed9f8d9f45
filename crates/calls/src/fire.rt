ghost use Rattle.queues.specs.Places.{view_of};
ghost use Rattle.calls.specs.Memory.{memory};
ghost use Rattle.coherence.specs.declared.call.Call.TheVariants.{Fire};
ghost use Rattle.coherence.specs.declared.event.Event.TheVariants.{Fired};
ghost use Rattle.calls.specs.Calls.{CallAnswered};

use crate::carry::carry_out;
use crate::fits::fits;
use crate::lent::Lent;
use crate::record::CellRecord;
use crate::sizes::RoundSizes;
use coherence::refusal::Refusal;
use links::lane::Links;
use messages::message::Message;
use protocol::deed::Deed;
use protocol::firing::FiringKind;
use protocol::instruction::Instruction;
use protocol::pages::HomePage;
use queues::queue::Queues;
use registers::register::Register;

// Tries one rule for a station: the page and the deed, or the first question that is answered no, and nothing is changed.
pub(crate) fn fire<V: Copy, D: Register, L: Links<Message<V>>>(
    sizes: RoundSizes,
    kind: FiringKind,
    station: usize,
    home: &mut [HomePage<V, D>],
    cells: &mut [CellRecord<V>],
    links: &mut L,
    queues: &mut Queues<'_, Instruction<V>>,
) -> Result<(usize, Deed<V>), Refusal>
    ensures { CallAnswered D.names sizes (memory home.old cells.old (L.view links.old) (view_of queues.old)) (memory home.new cells.new (L.view links.new) (view_of queues.new)) (Fire kind station) (λ x. Fired kind station x.0 x.1) result }
{
    if !fits(sizes, home, cells, links, queues) {
        return Err(Refusal::Memory);
    }
    if station >= sizes.stations {
        return Err(Refusal::Station);
    }
    let lent = Lent {
        sizes,
        home,
        cells,
        links,
        queues,
    };
    let plan = lent.plan(kind, station)?;
    Ok(carry_out(sizes, station, plan, home, cells, links, queues))
}
