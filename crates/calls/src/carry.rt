ghost use Rattle.std.specs.Prelude.{◌≡◌, ◌*◌, ◌<◌, true, false, length};
ghost use Rattle.queues.specs.Places.{view_of};
ghost use Rattle.links.specs.declared.lane.Lane.TheVariants.{Down};
ghost use Rattle.links.specs.View.{same_lane};
ghost use Rattle.protocol.specs.Deeds.{account_of};
ghost use Rattle.protocol.specs.Machines.{page_meaning, sends_meaning};
ghost use Rattle.protocol.specs.State.{with_entry, with_cell, left_queue, left_lane, posted, from_station, from_home};
ghost use Rattle.calls.specs.Memory.{memory, meaning, plain, cells_of, pages_of};
ghost use Rattle.calls.specs.Lanes.{with_lanes, with_rows, space_to_send, space_for_all};
ghost use Rattle.calls.specs.Plans.{page_of, deed_of, plan_outcome, plan_space};

use crate::lanes::{leave, send_down, send_up};
use crate::record::CellRecord;
use crate::sizes::RoundSizes;
use crate::step::Plan;
use links::lane::{Lane, Links};
use messages::message::Message;
use protocol::deed::Deed;
use protocol::instruction::Instruction;
use protocol::pages::{HomePage, HomeStep};
use protocol::station::StationStep;
use queues::queue::Queues;
use registers::register::Register;

// Writes and sends what a firing was planned to, and says its page and its deed.
pub(crate) fn carry_out<V: Copy, D: Register, L: Links<Message<V>>>(
    sizes: RoundSizes,
    station: usize,
    plan: Plan<V, D>,
    home: &mut [HomePage<V, D>],
    cells: &mut [CellRecord<V>],
    links: &mut L,
    queues: &mut Queues<'_, Instruction<V>>,
) -> (usize, Deed<V>)
    requires served { station < sizes.stations }
    requires inside { page_of plan < sizes.pages }
    requires pages { length home.old ≡ sizes.pages }
    requires whole { length cells.old ≡ sizes.stations * sizes.pages }
    requires space { plan_space D.names (L.view links.old) station plan ≡ true }
    ensures answer { result ≡ (page_of plan, deed_of plan) }
    ensures after { (v : V) → meaning D.names (plain sizes) v (memory home.new cells.new (L.view links.new) (view_of queues.new)) ≡ (plan_outcome D.names (meaning D.names (plain sizes) v (memory home.old cells.old (L.view links.old) (view_of queues.old))) station plan).after }
{
    match plan {
        Plan::Work(page, step) => {
            leave_queue(queues, step.deed.leaves(), station);
            station_does(sizes, cells, links, Lane::Request, station, page, step);
            (page, step.deed)
        }
        Plan::Receive(page, step) => {
            leave(links, step.deed.leaves(), Lane::Down, station);
            station_does(sizes, cells, links, Lane::Reply, station, page, step);
            (page, step.deed)
        }
        Plan::Collect(page, step) => {
            home_does(home, links, Lane::Reply, station, page, step);
            (page, step.deed)
        }
        Plan::Serve(page, step) => {
            home_does(home, links, Lane::Request, station, page, step);
            (page, step.deed)
        }
    }
}

// The oldest instruction leaves its queue, or stays.
fn leave_queue<V: Copy>(queues: &mut Queues<'_, Instruction<V>>, leaves: bool, station: usize)
    ensures { view_of queues.new ≡ with_rows (view_of queues.old) (left_queue leaves station (view_of queues.old).row) }
{
    if leaves {
        let _ = queues.drop_oldest(station);
    }
}

// A station writes one cell and sends on one of its lanes.
fn station_does<V: Copy, L: Links<Message<V>>>(
    sizes: RoundSizes,
    cells: &mut [CellRecord<V>],
    links: &mut L,
    lane: Lane,
    station: usize,
    page: usize,
    step: StationStep<V>,
)
    requires whole { length cells.old ≡ sizes.stations * sizes.pages }
    requires served { station < sizes.stations }
    requires inside { page < sizes.pages }
    requires space { space_to_send (L.view links.old) lane station step.sends ≡ true }
    ensures cells { cells_of sizes.stations sizes.pages cells.new ≡ with_cell (cells_of sizes.stations sizes.pages cells.old) station page step.cell }
    ensures links { L.view links.new ≡ with_lanes (L.view links.old) (posted (L.view links.old).waiting (from_station lane station page step.sends)) }
{
    // The round has the cell, so there is a place.
    if let Some(at) = sizes.place(station, page) {
        let kept = cells[at].value;
        cells[at] = CellRecord::of(step.cell, kept);
    }
    send_up(links, lane, station, page as u16, step.sends);
}

// The home's oldest message of a lane leaves or stays; the home writes one page and sends.
fn home_does<V: Copy, D: Register, L: Links<Message<V>>>(
    home: &mut [HomePage<V, D>],
    links: &mut L,
    from: Lane,
    station: usize,
    page: usize,
    step: HomeStep<V, D>,
)
    requires inside { page < length home.old }
    requires small { page < 65536 }
    requires above { same_lane Down from ≡ false }
    requires space { space_for_all (L.view links.old) (sends_meaning D.names step.sends) ≡ true }
    ensures home { (v : V) → pages_of D.names v home.new ≡ with_entry (pages_of D.names v home.old) page (page_meaning D.names step.page) }
    ensures links { L.view links.new ≡ with_lanes (L.view links.old) (posted (left_lane (account_of step.deed).leaves from station (L.view links.old).waiting) (from_home page (sends_meaning D.names step.sends))) }
{
    leave(links, step.deed.leaves(), from, station);
    home[page] = step.page;
    send_down(links, page as u16, step.sends);
}
