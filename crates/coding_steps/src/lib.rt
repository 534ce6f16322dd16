// The steps by which coefficients are chosen over bytes.
#![tactic(auto)]

mod carrier;
mod dual;
mod lowest;
mod paths;
mod product;
mod serving;

pub use carrier::{Carrier, at_hand, messages};
pub use dual::renew;
pub use lowest::lowest_serving;
pub use paths::place;
pub use product::Product;
pub use serving::Choice;
