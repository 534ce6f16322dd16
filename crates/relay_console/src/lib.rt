// What `box` and `listen` share: the node at a place, and the records that come in at it.
#![tactic(auto)]

mod intake;
mod node;
mod role;
mod stream;

pub use intake::Intake;
pub use node::read_node;
pub use role::Role;
pub use stream::{fill, record_length};
