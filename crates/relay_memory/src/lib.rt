// The memory of a node: what came in for the round at work and the two that follow, and the rounds that end.
#![tactic(auto)]

mod links;
mod refusal;
mod slots;
mod slots_steps;

pub use links::position;
pub use refusal::Refusal;
pub use slots::Slots;
