// Tests of the crates `registers` and `queues`. They stand apart, because a crate with tests is proved twice.
#![tactic(auto)]

#[cfg(test)]
mod queue_tests;
#[cfg(test)]
mod register_tests;
