// Coefficients for all receivers at once over bytes.
#![tactic(auto)]

mod aim;
mod coder;
mod pass;
mod receiver;
mod transposed;
mod unit_rows;
mod whole;

pub use aim::Aim;
pub use whole::code;
pub use wire::{Coded, Decoder};
