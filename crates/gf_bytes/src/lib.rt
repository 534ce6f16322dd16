// Bytes as the field of 256 elements: bytes, packets of bytes, and short vectors of bytes.
#![tactic(auto)]

mod byte;
mod inverses;
mod packet;
mod vector;

pub use byte::{double, inverse, mul};
pub use packet::{PACKET_LENGTH, Packet, add_multiple, mix};
pub use vector::{MAX_COUNT, Vector};
