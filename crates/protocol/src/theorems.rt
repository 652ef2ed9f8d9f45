ghost use Rattle.protocol.specs.Machines.{MachinesFollowRules};

// The functions that the machines compute are the rules, which leave no choice.
pub fn machines_follow_rules<V>()
    ensures { MachinesFollowRules V }
{}
