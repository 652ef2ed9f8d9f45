// Who shares a page. `register::Register` is the trait of a set of stations, numbers 0 to 15; `bits::BitRegister`
// keeps a bit for each station and `packed::PackedRegister` a packed list of their numbers. Of both it is promised
// what they name after each call, as one equation of sets, and how many stations that is.
// Definitions to believe: specs/Sets.antt; what the two kinds keep: specs/Bits.antt, specs/Packed.antt. Proofs: proofs/,
// and for the law of the trait specs/HighLemmas.antt.
#![tactic(auto)]

pub mod bits;
pub mod packed;
pub mod register;
