// The plan of a net, and what is promised of it. Nothing here runs.
#![tactic(auto)]

ghost use Rattle.planner_theory.specs.Promise.{MainPromise, PlanFits};

// For every accepted net, either every receiver reads every message by the plan's coefficients and rows,
// or the plan names a receiver and a cut behind which no scheme whatever could serve it.
pub fn main_promise_stands() -> u8
    ensures { MainPromise }
{
    0
}

// As many coefficients as packets are at hand, readers whose links come in, a cut of nodes that are there.
pub fn plans_fit() -> u8
    ensures { PlanFits }
{
    0
}
