// Tests of relays, receivers and the source, with answers worked out by hand.
#![tactic(auto)]

#[cfg(test)]
mod tests;
