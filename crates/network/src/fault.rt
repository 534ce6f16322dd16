// What can be wrong with the bytes of a net.
ghost use Rattle.std.specs.Prelude.{◌≡◌, Some};
ghost use Rattle.network.specs.Faults.{number, text, message};
ghost use Rattle.network.specs.declared.fault.ReadError.TheVariants.{Memory};

use std::alloc::AllocError;
use std::error::Error;
use std::fmt;

#[derive(Clone, Copy, Debug, PartialEq, Eq)]
pub enum Fault {
    // an unknown kind, an item that is cut short, or bytes left over
    Malformed = 1,
    // a count outside its limits, or a node that is not there
    OutOfRange = 2,
    // a link into the source, or from a node to itself
    Misdirected = 3,
    // a link into a node behind one out of it
    OutOfOrder = 4,
    // receivers that do not rise, or the source among them
    Receivers = 5,
    // a link out of a node, not the source, that no link comes into
    Unfed = 10,
}

#[derive(Clone, Copy, Debug, PartialEq, Eq)]
pub enum ReadError {
    // the fault, and the byte at which the item that has it begins
    Faulty(Fault, usize),
    Memory,
}

impl Fault {
    pub fn number(self) -> u8
        ensures { result ≡ number self }
    {
        self as u8
    }

    // The fault in the words of the format, where nodes are places, links lines and receivers listeners.
    pub fn text(self) -> &'static str
        ensures { result.now ≡ text self }
    {
        match self {
            Fault::Malformed => "unknown kind or bad length",
            Fault::OutOfRange => "a count out of range, or a place that isn't there",
            Fault::Misdirected => "a line into the source, or from a place to itself",
            Fault::OutOfOrder => "a line into a place after one out of it",
            Fault::Receivers => "listeners not rising, or the source among them",
            Fault::Unfed => "a line out of a place, not the source, that no line comes into",
        }
    }
}

impl fmt::Display for Fault {
    ghost output = { λ fault. Some (text fault) };

    fn fmt<W: fmt::Write>(&self, f: &mut fmt::Formatter<W>) -> fmt::Result {
        f.write_str(self.text())
    }
}

impl Error for Fault {}

impl fmt::Display for ReadError {
    ghost output = { λ error. Some (message error) };

    fn fmt<W: fmt::Write>(&self, f: &mut fmt::Formatter<W>) -> fmt::Result {
        match self {
            ReadError::Faulty(fault, at) => {
                write!(f, "fault {} at byte {at}: {fault}", fault.number())
            }
            ReadError::Memory => write!(f, "not enough memory"),
        }
    }
}

impl Error for ReadError {}

impl From<AllocError> for ReadError {
    ghost from_gives = { λ _ e. e ≡ Memory };

    fn from(_: AllocError) -> Self {
        Self::Memory
    }
}
