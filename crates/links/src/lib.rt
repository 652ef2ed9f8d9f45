// Links between a home and its stations: three lanes of waiting messages for each station. `lane::Links` is the trait;
// `record::record_links` makes links over a lent slice of messages, `bytes::byte_links` over lent bytes, and
// `forward::forward` passes a message from lane to lane of any links. Every call says by one equation of views what
// changed and what did not: a send is denied exactly at a station that is not served or a full lane, a drop exactly where
// nothing waits, a denial or a question changes nothing, and a call on one lane changes no other.
// Definitions to believe: specs/View.antt; where messages lie: specs/Lanes.antt, specs/Slots.antt. Proofs: proofs/, and
// specs/Sound.antt.
#![tactic(auto)]

pub mod bytes;
pub mod forward;
pub mod lane;
pub mod order;
pub mod record;
mod rows;
mod slot;
