ghost use Rattle.std.specs.Prelude.{◌≡◌};
ghost use Rattle.queues.specs.Places.{view_of};
ghost use Rattle.calls.specs.Memory.{memory};
ghost use Rattle.calls.specs.Calls.{PrepareAnswered};

use crate::fill::{fill_cells, fill_home};
use crate::fits::fits;
use crate::idle::all_idle;
use crate::record::CellRecord;
use crate::sizes::RoundSizes;
use coherence::refusal::Refusal;
use links::lane::Links;
use messages::message::Message;
use protocol::instruction::Instruction;
use protocol::pages::HomePage;
use protocol::sizes::Sizes;
use queues::queue::Queues;
use registers::register::Register;

// The sizes of a round that is prepared: every page names nobody and has the value, and no station has a copy.
pub(crate) fn prepare<V: Copy, D: Register, L: Links<Message<V>>>(
    sizes: Sizes,
    value: V,
    home: &mut [HomePage<V, D>],
    cells: &mut [CellRecord<V>],
    links: &L,
    queues: &Queues<'_, Instruction<V>>,
) -> Result<RoundSizes, Refusal>
    ensures { PrepareAnswered D.names sizes value (memory home.old cells.old (L.view links.now) (view_of queues.now)) (memory home.new cells.new (L.view links.now) (view_of queues.now)) result }
{
    let round = RoundSizes::try_from(sizes)?;
    if !fits(round, home, cells, links, queues) {
        return Err(Refusal::Memory);
    }
    if !all_idle(links, queues) {
        return Err(Refusal::Memory);
    }
    fill_home(home, value);
    fill_cells(cells);
    Ok(round)
}
