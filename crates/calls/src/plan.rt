ghost use Rattle.std.specs.Prelude.{◌≡◌, ◌<◌, true};
ghost use Rattle.protocol.specs.declared.firing.FiringKind.TheVariants.{Work, Receive, Collect, Serve};
ghost use Rattle.calls.specs.Plans.{work_outcome, receive_outcome, collect_outcome, serve_outcome, page_of, plan_outcome, plan_space, Found};
ghost use Rattle.calls.specs.Lanes.{space_to_send, space_for_all};
ghost use Rattle.calls.specs.Looking.{PlannedOn};
ghost use Rattle.links.specs.declared.lane.Lane.TheVariants.{Request, Reply};
ghost use Rattle.protocol.specs.Machines.{sends_meaning};

use crate::lanes::{space_for_all, space_to_send};
use crate::lent::Lent;
use crate::step::Plan;
use coherence::refusal::Refusal;
use links::lane::{Lane, Links};
use messages::message::Message;
use protocol::firing::FiringKind;
use protocol::pages::HomeStep;
use protocol::station::StationStep;
use registers::register::Register;

impl<V: Copy, D: Register, L: Links<Message<V>>> Lent<'_, '_, V, D, L> {
    // What a firing of a station is to write, or the first question that is answered no.
    pub(crate) fn plan(&self, kind: FiringKind, station: usize) -> Result<Plan<V, D>, Refusal>
        requires served { station < self.now.sizes.stations }
        ensures plan { PlannedOn D.names self.now station kind (plan_outcome D.names) result }
        ensures inside { Found (λ p. page_of p < self.now.sizes.pages) result }
        ensures space { Found (λ p. plan_space D.names (L.view self.now.links.now) station p ≡ true) result }
    {
        // The kind is data of the call, and each kind asks its own questions: no closure says that more plainly.
        match kind {
            FiringKind::Work => {
                let (page, step) = self.plan_work(station)?;
                Ok(Plan::Work(page, step))
            }
            FiringKind::Receive => {
                let (page, step) = self.plan_receive(station)?;
                Ok(Plan::Receive(page, step))
            }
            FiringKind::Collect => {
                let (page, step) = self.plan_collect(station)?;
                Ok(Plan::Collect(page, step))
            }
            FiringKind::Serve => {
                let (page, step) = self.plan_serve(station)?;
                Ok(Plan::Serve(page, step))
            }
        }
    }

    // What a station does with its oldest instruction: the page and the step.
    fn plan_work(&self, station: usize) -> Result<(usize, StationStep<V>), Refusal>
        requires served { station < self.now.sizes.stations }
        ensures plan { PlannedOn D.names self.now station Work work_outcome result }
        ensures inside { Found (λ x. x.0 < self.now.sizes.pages) result }
        ensures space { Found (λ x. space_to_send (L.view self.now.links.now) Request station x.1.sends ≡ true) result }
    {
        let instruction = self.queues.oldest(station).ok_or(Refusal::NothingWaits)?;
        let page = instruction.page;
        if page >= self.sizes.pages {
            return Err(Refusal::Page);
        }
        let step = self
            .cell(station, page)
            .work(instruction.access)
            .ok_or(Refusal::NoRule)?;
        if !space_to_send(self.links, Lane::Request, station, step.sends) {
            return Err(Refusal::NoSpace);
        }
        Ok((page, step))
    }

    // What a station does with the oldest message of its down lane: the page and the step.
    fn plan_receive(&self, station: usize) -> Result<(usize, StationStep<V>), Refusal>
        requires served { station < self.now.sizes.stations }
        ensures plan { PlannedOn D.names self.now station Receive receive_outcome result }
        ensures inside { Found (λ x. x.0 < self.now.sizes.pages) result }
        ensures space { Found (λ x. space_to_send (L.view self.now.links.now) Reply station x.1.sends ≡ true) result }
    {
        let (page, kind) = self.oldest(Lane::Down, station)?;
        let step = self
            .cell(station, page)
            .receive(kind)
            .ok_or(Refusal::NoRule)?;
        if !space_to_send(self.links, Lane::Reply, station, step.sends) {
            return Err(Refusal::NoSpace);
        }
        Ok((page, step))
    }

    // What the home does with the oldest message of a station's reply lane: the page and the step, which sends nothing.
    fn plan_collect(&self, station: usize) -> Result<(usize, HomeStep<V, D>), Refusal>
        ensures plan { PlannedOn D.names self.now station Collect (collect_outcome D.names) result }
        ensures inside { Found (λ x. x.0 < self.now.sizes.pages) result }
        ensures space { Found (λ x. space_for_all (L.view self.now.links.now) (sends_meaning D.names x.1.sends) ≡ true) result }
    {
        let (page, kind) = self.oldest(Lane::Reply, station)?;
        let step = self
            .page(page)
            .collect(station, kind)
            .ok_or(Refusal::NoRule)?;
        Ok((page, step))
    }

    // What the home does with the oldest request of a station: the page and the step.
    fn plan_serve(&self, station: usize) -> Result<(usize, HomeStep<V, D>), Refusal>
        ensures plan { PlannedOn D.names self.now station Serve (serve_outcome D.names) result }
        ensures inside { Found (λ x. x.0 < self.now.sizes.pages) result }
        ensures space { Found (λ x. space_for_all (L.view self.now.links.now) (sends_meaning D.names x.1.sends) ≡ true) result }
    {
        let (page, kind) = self.oldest(Lane::Request, station)?;
        let step = self.page(page).serve(station, kind).ok_or(Refusal::NoRule)?;
        if !space_for_all(self.links, step.sends) {
            return Err(Refusal::NoSpace);
        }
        Ok((page, step))
    }
}
