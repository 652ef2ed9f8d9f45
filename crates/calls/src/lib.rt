// The calls of a round on the memory that a caller lends at each call: the home's pages, the stations' cells, the links
// and the queues of instructions, over any links, registers and values. Each call asks its questions in order; where all
// are answered yes it leaves what it is defined to leave, and else it has the first refusal and changes nothing.
// A firing of a station finds the rule's step first, which changes nothing, and then carries it out, which nothing denies.
// The calls are private to this crate until the round has its states and the call that carries the whole promise.
// Definitions to believe: specs/Memory.antt, the state that a memory means; specs/Calls.antt, what a call answers.
#![tactic(auto)]

mod carry;
mod cells;
mod checked;
mod close;
mod fill;
mod fire;
mod fits;
mod idle;
mod issue;
mod lanes;
mod lent;
mod look;
mod plan;
mod prepare;
mod readout;
mod record;
mod set;
mod sizes;
mod step;
