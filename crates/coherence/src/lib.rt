// What page sharing promises over every history of a round: a granted prepare and then any list of calls that the round's
// states allow, granted or denied. This crate has the calls and events as types, and the promise as a theorem, whatever
// the values, the registers and the links are; it runs nothing.
// Definitions to believe: specs/Refusals.antt, the numbers and words of refusals; specs/Questions.antt, what each call asks;
// specs/Histories.antt, which histories lead to which state; specs/Promise.antt and specs/Sequential.antt, what is promised
// of them.
#![tactic(auto)]

pub mod call;
pub mod event;
pub mod phase;
pub mod refusal;
pub mod theorems;
