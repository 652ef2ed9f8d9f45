ghost use Rattle.std.specs.Prelude.{◌≡◌};
ghost use Rattle.std.specs.Option.{option_map};
ghost use Rattle.protocol.specs.Machines.{collected, served, page_meaning, step_meaning, state_meaning, after_strike, given_or_recalled, recalled_writer};

use crate::deed::{Deed, Fold};
use crate::pages::{HomePage, HomeState, HomeStep, Sends};
use messages::message::Kind;
use registers::register::{Register, only};

impl<V: Copy, D: Register> HomePage<V, D> {
    // The home reads a reply of a station about this page; nothing where no rule fits.
    pub fn collect(self, station: usize, reply: Kind<V>) -> Option<HomeStep<V, D>>
        ensures { option_map (step_meaning D.names) result ≡ collected station (page_meaning D.names self) reply }
    {
        match (self.state, reply) {
            (HomeState::TW(writer), Kind::WbRep(value)) if station == writer => {
                let page = HomePage::new(value, HomeState::R(only(station)));
                Some(page.step(Sends::Nothing, Deed::WrittenBack))
            }
            (HomeState::TW(writer), Kind::FlushRep(value)) if station == writer => {
                let page = HomePage::new(value, HomeState::R(D::empty()));
                Some(page.step(Sends::Nothing, Deed::Returned))
            }
            (HomeState::TR(readers), Kind::InvRep) if readers.names(station) => {
                let page = HomePage::new(self.value, after_strike(readers.strike(station)));
                Some(page.step(Sends::Nothing, Deed::Returned))
            }
            _ => None,
        }
    }

    // The home takes a request of a station for this page; nothing where no rule fits.
    pub fn serve(self, station: usize, request: Kind<V>) -> Option<HomeStep<V, D>>
        ensures { option_map (step_meaning D.names) result ≡ served station (page_meaning D.names self) request }
    {
        match (self.state, request) {
            (HomeState::R(readers), Kind::ShReq) if !readers.names(station) => {
                let page = HomePage::new(self.value, HomeState::R(readers.add(station)));
                let grant = Sends::To(station, Kind::ShRep(self.value));
                Some(page.step(grant, Deed::Shared(Fold::NoCopy)))
            }
            (HomeState::R(readers), Kind::ExReq) => Some(self.give_or_recall(readers, station)),
            (HomeState::W(writer), Kind::ShReq) if station != writer => {
                Some(self.recall_writer(writer, Kind::WbReq))
            }
            (HomeState::W(writer), Kind::ExReq) if station != writer => {
                Some(self.recall_writer(writer, Kind::FlushReq))
            }
            _ => None,
        }
    }

    // The writing copy for a station, if no other has a copy; else the others' copies are recalled.
    fn give_or_recall(self, readers: D, station: usize) -> HomeStep<V, D>
        ensures { step_meaning D.names result ≡ given_or_recalled station self.value (D.names readers) }
    {
        let fold = Fold::from(readers.names(station));
        let others = readers.strike(station);
        if others.count() == 0 {
            let page = HomePage::new(self.value, HomeState::W(station));
            let grant = Sends::To(station, Kind::ExRep(self.value));
            page.step(grant, Deed::Exclusive(fold))
        } else {
            let page = HomePage::new(self.value, HomeState::TR(others));
            page.step(Sends::ToAll(others, Kind::InvReq), Deed::Recalling(fold))
        }
    }

    fn recall_writer(self, writer: usize, recall: Kind<V>) -> HomeStep<V, D>
        ensures { step_meaning D.names result ≡ recalled_writer self.value writer recall }
    {
        let page = HomePage::new(self.value, HomeState::TW(writer));
        page.step(Sends::To(writer, recall), Deed::Recalling(Fold::NoCopy))
    }
}

// Whom a recalled page still waits for; once for nobody, the recall is over.
fn after_strike<D: Register>(rest: D) -> HomeState<D>
    ensures { state_meaning D.names result ≡ after_strike (D.names rest) }
{
    if rest.count() == 0 {
        HomeState::R(D::empty())
    } else {
        HomeState::TR(rest)
    }
}
