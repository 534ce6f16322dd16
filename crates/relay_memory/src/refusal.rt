// Why what comes in is refused.
ghost use Rattle.std.specs.Prelude.{◌≡◌, Some};
ghost use Rattle.relay_memory.specs.Refusals.{number, text};

use std::error::Error;
use std::fmt;

#[derive(Clone, Copy, Debug, PartialEq, Eq)]
pub enum Refusal {
    // of an unknown kind or length, or a message at a node that is not the source
    Malformed = 1,
    // it comes over no link that comes in here
    Foreign = 6,
    // its round is over, or there is one of its link and round already
    Late = 7,
    // its round is more than two rounds beyond the one at work
    Early = 8,
}

impl Refusal {
    pub fn number(self) -> u8
        ensures { result ≡ number self }
    {
        self as u8
    }

    // The refusal in the words of the format, where links are lines.
    pub fn text(self) -> &'static str
        ensures { result.now ≡ text self }
    {
        match self {
            Refusal::Malformed => "unknown kind or bad length",
            Refusal::Foreign => "a packet on a line that doesn't come in here",
            Refusal::Late => "a second packet for a line and round, or for a round that is over",
            Refusal::Early => "more than 2 rounds early",
        }
    }
}

impl fmt::Display for Refusal {
    ghost output = { λ refusal. Some (text refusal) };

    fn fmt<W: fmt::Write>(&self, f: &mut fmt::Formatter<W>) -> fmt::Result {
        f.write_str(self.text())
    }
}

impl Error for Refusal {}
