// What a page may hold. `kind::Value` is the trait of a kind of page value with a byte form of a fixed
// width; `count::Count` and `answer::Answer` are two kinds. Every kind owes, as laws of the trait, that
// reading the bytes of a value gives that value and that bytes which read as a value are its bytes.
// Definitions to believe: specs/Writing.antt, specs/Count.antt, specs/BoxNumber.antt, specs/Answer.antt. Proofs: proofs/,
// and for the laws of answers specs/Boxes.antt and specs/AnswerValueLemmas.antt.
#![tactic(auto)]

pub mod answer;
pub mod box_number;
pub mod buffer;
pub mod count;
pub mod kind;
pub mod theorems;
