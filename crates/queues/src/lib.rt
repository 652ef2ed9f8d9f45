// Entries that wait. `queue::Queues` keeps rows of entries of any copied type in a lent slice, each row oldest first;
// `table::Table` keeps where the entries of each row lie, for whoever stores them in another form. Every call says by one
// equation of views what changed and what did not: a put is denied exactly at a full or missing row, a drop exactly where
// nothing waits, a denial or a question changes nothing, and a call on one row changes no other.
// Definitions to believe: specs/View.antt; where entries lie: specs/Places.antt, specs/Positions.antt. Proofs: proofs/.
#![tactic(auto)]

pub mod denied;
mod position;
pub mod queue;
pub mod table;
