// A whole net at work: messages are played over its nodes, one after the other.
#![tactic(auto)]

mod hear;
mod make;
mod padding;
mod parts;
mod play;
mod player;

pub use padding::fill_up;
pub use player::Player;
