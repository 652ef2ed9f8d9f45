ghost use Rattle.std.specs.Prelude.{◌≡◌, ℕ, ◌+◌, ◌-◌, ◌*◌, ◌<◌, ◌≤◌, true};
ghost use Rattle.registers.specs.Sets.{station_limit};
ghost use Rattle.links.specs.View.{has_space};
ghost use Rattle.protocol.specs.Machines.{sends_meaning};
ghost use Rattle.protocol.specs.State.{left_lane, posted, from_station, from_home};
ghost use Rattle.protocol.specs.declared.pages.Sends.TheVariants.{ToAll};
ghost use Rattle.calls.specs.Lanes.{with_lanes, space_to_send, space_below, space_for_all};

use links::lane::{Lane, Links};
use messages::message::{Kind, Message};
use protocol::pages::Sends;
use registers::register::{Register, STATIONS};

// Whether the station is served and its lane has space.
fn has_space<V: Copy, L: Links<Message<V>>>(links: &L, lane: Lane, station: usize) -> bool
    ensures { result ≡ has_space (L.view links.now) lane station }
{
    station < links.count() && links.waiting(lane, station) < links.room()
}

// Whether there is space for what a station sends on one of its lanes.
pub(crate) fn space_to_send<V: Copy, L: Links<Message<V>>>(
    links: &L,
    lane: Lane,
    station: usize,
    sends: Option<Kind<V>>,
) -> bool
    ensures { result ≡ space_to_send (L.view links.now) lane station sends }
{
    match sends {
        None => true,
        Some(_) => has_space(links, lane, station),
    }
}

// Whether the down lane of each station of a register is a served station's, with space.
fn all_space<V: Copy, L: Links<Message<V>>, D: Register>(links: &L, set: D) -> bool
    ensures { result ≡ space_below (L.view links.now) station_limit (D.names set) }
{
    (0..STATIONS).all(|station| !set.names(station) || has_space(links, Lane::Down, station))
}

// Whether there is space for all that the home sends.
pub(crate) fn space_for_all<V: Copy, L: Links<Message<V>>, D: Register>(
    links: &L,
    sends: Sends<V, D>,
) -> bool
    ensures { result ≡ space_for_all (L.view links.now) (sends_meaning D.names sends) }
{
    match sends {
        Sends::Nothing => true,
        Sends::To(station, _) => has_space(links, Lane::Down, station),
        Sends::ToAll(set, _) => all_space(links, set),
    }
}

// The oldest message leaves its lane, or stays.
pub(crate) fn leave<V: Copy, L: Links<Message<V>>>(
    links: &mut L,
    leaves: bool,
    from: Lane,
    station: usize,
)
    ensures { L.view links.new ≡ with_lanes (L.view links.old) (left_lane leaves from station (L.view links.old).waiting) }
{
    if leaves {
        let _ = links.drop_oldest(from, station);
    }
}

// A station sends on one of its lanes.
pub(crate) fn send_up<V: Copy, L: Links<Message<V>>>(
    links: &mut L,
    lane: Lane,
    station: usize,
    page: u16,
    sends: Option<Kind<V>>,
)
    requires { space_to_send (L.view links.old) lane station sends ≡ true }
    ensures { L.view links.new ≡ with_lanes (L.view links.old) (posted (L.view links.old).waiting (from_station lane station page sends)) }
{
    if let Some(kind) = sends {
        let _ = links.send(lane, station, Message { page, kind });
    }
}

// The home sends the same message to each station of a register.
fn send_to_all<V: Copy, L: Links<Message<V>>, D: Register>(
    links: &mut L,
    page: u16,
    set: D,
    kind: Kind<V>,
)
    requires { space_below (L.view links.old) station_limit (D.names set) ≡ true }
    ensures { L.view links.new ≡ with_lanes (L.view links.old) (posted (L.view links.old).waiting (from_home page (ToAll (D.names set) kind))) }
{
    // The stations are numbers, so the loop has no index; and it sends, so it is no chain.
    for station in 0..STATIONS {
        if set.names(station) {
            let _ = links.send(Lane::Down, station, Message { page, kind });
        }
    }
}

// The home sends.
pub(crate) fn send_down<V: Copy, L: Links<Message<V>>, D: Register>(
    links: &mut L,
    page: u16,
    sends: Sends<V, D>,
)
    requires { space_for_all (L.view links.old) (sends_meaning D.names sends) ≡ true }
    ensures { L.view links.new ≡ with_lanes (L.view links.old) (posted (L.view links.old).waiting (from_home page (sends_meaning D.names sends))) }
{
    match sends {
        Sends::Nothing => {}
        Sends::To(station, kind) => {
            let _ = links.send(Lane::Down, station, Message { page, kind });
        }
        Sends::ToAll(set, kind) => send_to_all(links, page, set, kind),
    }
}
