// The protocol of page sharing: what a station makes of an instruction or a message at one of its cells, and what the
// home makes of a reply or a request at one of its pages. These are pure functions; what they send and write is carried
// out a layer above.
// Each is promised to give exactly what the rules give, for every cell, page and message, and to refuse every other pair.
// Definitions to believe: specs/Rules.antt, the rules; specs/Deeds.antt, what each deed is; specs/State.antt, the state of
// a round and what a firing makes of it. specs/Machines.antt has the rules as functions, which theorems.rt proves to be
// the rules.
#![tactic(auto)]

pub mod cell;
pub mod deed;
pub mod firing;
pub mod home;
pub mod instruction;
pub mod pages;
pub mod sizes;
pub mod station;
pub mod theorems;
