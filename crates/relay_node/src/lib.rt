// Relays and receivers at work on packets of bytes.
#![tactic(auto)]

mod links;
mod node;
mod node_error;
mod node_new;
mod node_steps;
mod records;
mod theorems;

pub use node::{Node, Out};
pub use node_error::NodeError;
pub use records::{PACKET_RECORD_LENGTH, write_record};
pub use relay_memory::Refusal;
pub use theorems::{nodes_relay, packets_one_by_one, records_are_read_back};
