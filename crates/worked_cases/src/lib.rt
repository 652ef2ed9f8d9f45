// Cases of page sharing that were worked by hand from its rules, and a whole round of nineteen calls. This crate promises
// that the rules as they are defined give these cases, and that the calls of the round are a history; it runs nothing.
// Definitions to believe: specs/Cases.antt, the cases. All that they speak of is defined in protocol and coherence.
#![tactic(auto)]

ghost use Rattle.worked_cases.specs.Cases.{WorkedCases};

// Cases worked by hand from the rules: two upgrades, a recall that meets a waiting station, and a round call by call.
pub fn worked_cases<V>()
    ensures { WorkedCases V }
{}
