// Tests of the links, of both kinds by the same checks.
#![tactic(auto)]

#[cfg(test)]
mod tests;
