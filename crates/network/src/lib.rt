// Networks with a rate and receivers, and the bytes in which they are kept.
#![tactic(auto)]

mod fault;
mod net;
mod reader;
mod writer;

pub use fault::{Fault, ReadError};
pub use net::{Link, Multicast, Network};
pub use reader::read;
pub use writer::write;
