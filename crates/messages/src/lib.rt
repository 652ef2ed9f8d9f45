// The messages between a home and its stations, and their bytes. `message::Message` is a page and one of
// ten kinds, `codec::write` puts a message into bytes and `codec::read` reads one, over every kind of
// value. Promised: what is written reads as the same message, bytes that read as a message are that
// message's bytes, no byte string stops `read`, and no buffer is written past what a message needs.
// Definitions to believe: specs/Bytes.antt, specs/Reading.antt, specs/RoundTrip.antt, specs/Examples.antt.
// Proofs: proofs/.
#![tactic(auto)]

pub mod codec;
pub mod field;
pub mod message;
#[cfg(test)]
mod tests;
pub mod theorems;
