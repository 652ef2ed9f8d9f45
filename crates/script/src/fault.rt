ghost use Rattle.std.specs.Prelude.{◌≡◌, Some, ◌++◌, codes, decimal};
ghost use Rattle.script.specs.declared.fault.FaultKind.TheVariants.{Unreadable};
ghost use Rattle.script.specs.Faults.{layer_number, fault_layer, fault_number, fault_words};

use protocol::firing::UnknownFiring;
use std::error::Error;
use std::fmt;

// The layer of a script that finds a fault, by its number.
#[derive(Clone, Copy, PartialEq, Eq, Debug)]
pub enum Layer {
    Field = 1,
    Record = 2,
}

// What can be wrong with a script, by the number of the question that was answered no. Further cases join when a round is
// there.
#[derive(Clone, Copy, PartialEq, Eq, Debug)]
pub enum FaultKind {
    // The script has more bytes than are read.
    TooLong = 20,
    // Fewer bytes are left than a header has.
    HeaderCut = 21,
    // Fewer bytes are left than the header says.
    BodyCut = 22,
    // No record has this tag.
    UnknownTag = 23,
    // No record of this tag has a body of this length.
    WrongLength = 24,
    // The value or the kind of firing does not read.
    Unreadable = 25,
}

// A fault of a script, and the byte where its field begins.
#[derive(Clone, Copy, PartialEq, Eq, Debug)]
pub struct Fault {
    pub kind: FaultKind,
    pub at: usize,
}

impl FaultKind {
    // The fault of a field that begins at this byte.
    pub fn at(self, at: usize) -> Fault
        ensures { result ≡ record { kind = self; at = at } }
    {
        Fault { kind: self, at }
    }

    // The layer that finds faults of this kind.
    pub fn layer(self) -> Layer
        ensures { result ≡ fault_layer self }
    {
        match self {
            FaultKind::TooLong | FaultKind::HeaderCut | FaultKind::BodyCut => Layer::Field,
            FaultKind::UnknownTag | FaultKind::WrongLength | FaultKind::Unreadable => Layer::Record,
        }
    }
}

impl From<Layer> for u8 {
    ghost from_gives = { λ layer number. number ≡ layer_number layer };

    fn from(layer: Layer) -> u8 {
        layer as u8
    }
}

impl From<FaultKind> for u8 {
    ghost from_gives = { λ kind number. number ≡ fault_number kind };

    fn from(kind: FaultKind) -> u8 {
        kind as u8
    }
}

impl From<UnknownFiring> for FaultKind {
    ghost from_gives = { λ _ kind. kind ≡ Unreadable };

    fn from(_: UnknownFiring) -> FaultKind {
        FaultKind::Unreadable
    }
}

// What the fault means, in words.
impl fmt::Display for FaultKind {
    ghost output = { λ kind. Some (fault_words kind) };

    fn fmt<W: fmt::Write>(&self, f: &mut fmt::Formatter<W>) -> fmt::Result {
        match self {
            FaultKind::TooLong => write!(f, "the script has more than 65536 bytes"),
            FaultKind::HeaderCut => write!(f, "fewer than three bytes are left for a header"),
            FaultKind::BodyCut => write!(f, "fewer bytes are left than the header says"),
            FaultKind::UnknownTag => write!(f, "no record has this tag"),
            FaultKind::WrongLength => write!(f, "no record of this tag has this length"),
            FaultKind::Unreadable => write!(f, "the value or the kind of firing does not read"),
        }
    }
}

impl fmt::Display for Fault {
    ghost output = { λ fault. Some (codes "byte " ++ (decimal fault.at ++ (codes ": " ++ fault_words fault.kind))) };

    fn fmt<W: fmt::Write>(&self, f: &mut fmt::Formatter<W>) -> fmt::Result {
        write!(f, "byte {}: {}", self.at, self.kind)
    }
}

impl Error for Fault {}
