// Paths that share no link, or a cut.
#![tactic(auto)]

mod augmentation;
mod decomposition;
mod finder;
mod found;

pub use finder::{find, paths_or_cut};
pub use found::{Found, Refusal};
