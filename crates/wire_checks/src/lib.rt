// Tests of plans that are read, or refused, against the reference program in tools/reference.
#![tactic(auto)]

#[cfg(test)]
mod tests;
