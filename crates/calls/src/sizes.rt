ghost use Rattle.std.specs.Prelude.{◌≤◌};

// The sizes of a round that was prepared: 1 to 16 stations, 1 to 4,096 pages, and room for 1 to 16 messages on a lane. It
// has the fields of `Sizes` and their bounds, and no `Sizes` inside, so that each size is said by one word.
#[derive(Clone, Copy)]
pub struct RoundSizes {
    pub(crate) stations: usize,
    pub(crate) pages: usize,
    pub(crate) room: usize,
    ghost manned: { 1 ≤ stations },
    ghost few: { stations ≤ 16 },
    ghost paged: { 1 ≤ pages },
    ghost short: { pages ≤ 4096 },
    ghost roomy: { 1 ≤ room },
    ghost narrow: { room ≤ 16 },
}
