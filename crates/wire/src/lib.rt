// Plans, and the bytes in which they are kept.
#![tactic(auto)]

mod fault;
mod fitted;
mod plan;
mod reader;
mod rest;
mod writer;

pub use fault::{Fault, ReadError};
pub use fitted::Fitted;
pub use plan::{Coded, Decoder, Plan};
pub use reader::read;
pub use writer::write;
