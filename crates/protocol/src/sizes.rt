// The sizes of a round: how many stations and pages it has, and how many messages each lane has room for.
#[derive(Clone, Copy, PartialEq, Eq, Debug)]
pub struct Sizes {
    pub stations: usize,
    pub pages: usize,
    pub room: usize,
}
