// Tests of the script reader, through the listing: each says a script, byte by byte, and the text that the
// formats give for it.
#![tactic(auto)]

#[cfg(test)]
mod tests;
