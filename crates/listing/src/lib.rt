// What a script says, in words: `kinds::ScriptKind` chooses the kind of its values, `lines::list` makes the
// whole listing, a line for each record and one for the fault that ends it. Its contract says every byte of
// the text, for every script.
// Definitions to believe: specs/Words.antt, specs/Lines.antt. Proofs: proofs/.
#![tactic(auto)]

pub mod kinds;
pub mod lines;
pub mod words;
