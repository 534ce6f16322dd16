// The links of a network by their ends, and the search for a path over them.
#![tactic(auto)]

mod adjacency;
mod reached;
mod search;

pub use adjacency::Adjacency;
pub use reached::Reached;
pub use search::Search;
