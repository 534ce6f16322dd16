// A program that speaks under its name.
ghost use Rattle.std.specs.Prelude.{◌≡◌, Ok, IfOk, IsErr, MatchResult};
ghost use Rattle.network.specs.Values.{value};
ghost use Rattle.wire.specs.Plan.{Fits};
ghost use Rattle.wire.specs.Values.{plan};

use crate::files::{LONGEST_NET, LONGEST_PLAN, read_start};
use crate::stopped::Stopped;
use network::Multicast;
use std::fmt::Display;
use wire::Plan;

#[derive(Clone, Copy)]
pub struct Program<'a> {
    pub rt: &'a HostRuntime,
    pub name: &'a str,
}

impl Program<'_> {
    // What was got; or says why there is nothing, and stops.
    pub fn or_stop<T: Drop, E: Display + Drop>(
        self,
        what: &str,
        got: Result<T, E>,
    ) -> Result<T, Stopped>
        ensures { MatchResult got (λ x. result ≡ Ok x) (λ _. IsErr result) }
    {
        match got {
            Ok(x) => Ok(x),
            Err(e) => {
                let name = self.name;
                eprintln!(self.rt; "{name}: {what}: {e}")?;
                Err(Stopped)
            }
        }
    }

    // The same, with no file or place to name.
    pub fn or_end<T: Drop, E: Display + Drop>(self, got: Result<T, E>) -> Result<T, Stopped>
        ensures { MatchResult got (λ x. result ≡ Ok x) (λ _. IsErr result) }
    {
        match got {
            Ok(found) => Ok(found),
            Err(e) => {
                let name = self.name;
                eprintln!(self.rt; "{name}: {e}")?;
                Err(Stopped)
            }
        }
    }

    // Reads a net, or says why it can't be read.
    pub fn read_net(self, path: &str) -> Result<Multicast, Stopped> {
        let bytes = self.or_stop(path, read_start(self.rt, path, LONGEST_NET))?;
        self.or_stop(path, network::read(self.rt.alloc(), &bytes))
    }

    // Reads a plan for a net, or says why it can't be read.
    pub fn read_plan(self, path: &str, net: &Multicast) -> Result<Plan, Stopped>
        ensures { IfOk result (λ p. Fits (value net.now) (plan p)) }
    {
        let bytes = self.or_stop(path, read_start(self.rt, path, LONGEST_PLAN))?;
        self.or_stop(path, wire::read(self.rt.alloc(), net, &bytes))
    }
}
