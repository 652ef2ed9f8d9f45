use protocol::firing::FiringKind;

// A part of a script that holds the bytes of a value, and the byte where its field begins.
#[derive(Clone, Copy)]
pub struct Part<'a> {
    pub bytes: &'a [u8],
    pub at: usize,
}

// One record, whose value is a `P`: the part of the script with its bytes, or what those bytes stand for.
#[derive(Clone, Copy)]
pub enum Record<P> {
    Prepare { stations: u8, pages: u16, room: u8 },
    Set { page: u16, value: P },
    Start,
    Load { station: u8, page: u16 },
    Store { station: u8, page: u16, value: P },
    Fire { kind: FiringKind, station: u8 },
    Close,
    Readout { page: u16 },
}

// A record of a script, and the byte where its field begins.
#[derive(Clone, Copy)]
pub struct Entry<'a> {
    pub at: usize,
    pub record: Record<Part<'a>>,
}
