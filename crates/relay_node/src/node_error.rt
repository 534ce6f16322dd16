// Why there is no node at a place.
ghost use Rattle.std.specs.Prelude.{◌≡◌, Some};
ghost use Rattle.relay_node.specs.NodeErrors.{number, text};
ghost use Rattle.relay_node.specs.declared.node_error.NodeError.TheVariants.{Memory};

use std::alloc::{AllocError, AllocFailed};
use std::error::Error;
use std::fmt;

#[derive(Clone, Copy, Debug, PartialEq, Eq)]
pub enum NodeError {
    // the net has no such place
    Missing = 2,
    // the plan serves no one, or no receiver is there
    Unfit = 9,
    // there is no memory for it
    Memory = 0,
}

impl NodeError {
    // 0 where nothing is wrong with what was given.
    pub fn number(self) -> u8
        ensures { result ≡ number self }
    {
        self as u8
    }
}

// In the words of the format, where nodes are places and receivers listeners.
impl fmt::Display for NodeError {
    ghost output = { λ error. Some (text error) };

    fn fmt<W: fmt::Write>(&self, f: &mut fmt::Formatter<W>) -> fmt::Result {
        match self {
            NodeError::Missing => f.write_str("fault 2: a place that isn't there"),
            NodeError::Unfit => f.write_str("fault 9: a listener that isn't one"),
            NodeError::Memory => f.write_str("not enough memory"),
        }
    }
}

impl Error for NodeError {}

impl From<AllocError> for NodeError {
    ghost from_gives = { λ _ e. e ≡ Memory };

    fn from(_e: AllocError) -> NodeError {
        NodeError::Memory
    }
}

impl<T: Drop> From<AllocFailed<T>> for NodeError {
    ghost from_gives = { λ _ e. e ≡ Memory };

    fn from(_e: AllocFailed<T>) -> NodeError {
        NodeError::Memory
    }
}
