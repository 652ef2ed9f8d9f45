use protocol::pages::HomeStep;
use protocol::station::StationStep;

// What a firing is to write, once every question is answered yes: the page, and the step of the station or of the home.
#[derive(Clone, Copy)]
pub(crate) enum Plan<V, D> {
    Work(usize, StationStep<V>),
    Receive(usize, StationStep<V>),
    Collect(usize, HomeStep<V, D>),
    Serve(usize, HomeStep<V, D>),
}
