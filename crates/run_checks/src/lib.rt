// Tests of whole runs: packets are delivered oldest first, newest first, and shuffled.
#![tactic(auto)]

#[cfg(test)]
mod tests;
