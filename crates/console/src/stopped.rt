// Stopping early.
ghost use Rattle.std.specs.Prelude.{◌≡◌, Some, codes, MatchResult};
ghost use Rattle.std.specs.Process.{exit_status};

use std::alloc::AllocError;
use std::fmt::Display;
use std::process::ExitCode;
use std::{fmt, io};

// Why a program stops early, once it has said so.
#[derive(Drop)]
pub struct Stopped;

impl From<io::Error> for Stopped {
    fn from(_e: io::Error) -> Stopped {
        Stopped
    }
}

// That memory is wanting, in the programs' words.
#[derive(Clone, Copy, Debug, PartialEq, Eq)]
pub struct OutOfMemory;

impl From<AllocError> for OutOfMemory {
    fn from(_e: AllocError) -> OutOfMemory {
        OutOfMemory
    }
}

impl Display for OutOfMemory {
    ghost output = { λ _. Some (codes "not enough memory") };

    fn fmt<W: fmt::Write>(&self, f: &mut fmt::Formatter<W>) -> fmt::Result {
        f.write_str("not enough memory")
    }
}

// The status that a program ends with. Why it stopped, it has said.
pub fn status(done: Result<(), Stopped>) -> ExitCode
    ensures { MatchResult done (λ _. exit_status result ≡ 0) (λ _. exit_status result ≡ 1) }
{
    match done {
        Ok(()) => ExitCode::SUCCESS,
        Err(Stopped) => ExitCode::FAILURE,
    }
}
