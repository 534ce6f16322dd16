// What is found, and why nothing is.
ghost use Rattle.std.specs.Prelude.{◌≡◌};
ghost use Rattle.flow.specs.declared.found.Refusal.TheVariants.{Memory};

use std::alloc::AllocError;

// What is found: so many paths that share no link, each by its links, or a cut, by a flag for each node. Both are answers to the
// question; so this is no Result.
#[derive(Drop)]
pub enum Found {
    Paths(Vec<Vec<u16>>),
    Cut([bool; 256]),
}

// Why nothing is: the node is the source or is not there, or memory is wanting.
#[derive(Clone, Copy, Debug, PartialEq, Eq)]
pub enum Refusal {
    NoReceiver,
    Memory,
}

impl From<AllocError> for Refusal {
    ghost from_gives = { λ _ e. e ≡ Memory };

    fn from(_e: AllocError) -> Refusal {
        Refusal::Memory
    }
}
