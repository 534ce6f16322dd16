// Tests of plans against the reference program in tools/reference.
#![tactic(auto)]

#[cfg(test)]
mod tests;
