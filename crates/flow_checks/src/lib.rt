// Tests of paths and cuts on nets whose answers were worked out by hand.
#![tactic(auto)]

#[cfg(test)]
mod tests;
