// What can be wrong with the bytes of a plan.
ghost use Rattle.std.specs.Prelude.{◌≡◌, Some};
ghost use Rattle.wire.specs.Faults.{number, text, message};

use std::error::Error;
use std::fmt;

#[derive(Clone, Copy, Debug, PartialEq, Eq)]
pub enum Fault {
    // an unknown kind, an item that is cut short, or bytes left over
    Malformed = 1,
    // a cut with a node that is not there
    OutOfRange = 2,
    // a plan that is not for this net
    Unfit = 9,
}

// As network's, but for the byte that want of memory has, and for the faults.
#[derive(Clone, Copy, Debug, PartialEq, Eq)]
pub enum ReadError {
    // the fault, and the byte at which the item that has it begins
    Faulty(Fault, usize),
    // the byte at which the item begins for which there is no memory; up to there nothing is at fault
    Memory(usize),
}

impl Fault {
    pub fn number(self) -> u8
        ensures { result ≡ number self }
    {
        self as u8
    }

    // The fault in the words of the format.
    pub fn text(self) -> &'static str
        ensures { result.now ≡ text self }
    {
        match self {
            Fault::Malformed => "unknown kind or bad length",
            Fault::OutOfRange => "a place that isn't there",
            Fault::Unfit => "a plan that isn't for this net",
        }
    }
}

impl fmt::Display for Fault {
    ghost output = { λ fault. Some (text fault) };

    fn fmt<W: fmt::Write>(&self, f: &mut fmt::Formatter<W>) -> fmt::Result {
        f.write_str(self.text())
    }
}

impl Error for Fault {}

impl fmt::Display for ReadError {
    ghost output = { λ error. Some (message error) };

    fn fmt<W: fmt::Write>(&self, f: &mut fmt::Formatter<W>) -> fmt::Result {
        match self {
            ReadError::Faulty(fault, at) => {
                write!(f, "fault {} at byte {at}: {fault}", fault.number())
            }
            ReadError::Memory(_) => write!(f, "not enough memory"),
        }
    }
}

impl Error for ReadError {}
