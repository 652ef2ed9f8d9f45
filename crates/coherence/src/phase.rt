// The states of a round.
#[derive(Clone, Copy, PartialEq, Eq, Debug)]
pub enum Phase {
    Preparation,
    Field,
    Closed,
}
