// Whole runs of a net by a plan: each function here has no other purpose than its contract, theorems.
#![tactic(auto)]

ghost use Rattle.delivery_theory.specs.Promise.{Delivered, FitNames, PlanDelivers, ReadsWhatCame};

// By a plan that serves all receivers each of them puts out every message, in order, whatever the order in which packets arrive.
pub fn every_receiver_gets_every_message() -> u8
    ensures reads { ReadsWhatCame }
    ensures named { FitNames }
    ensures delivered { Delivered }
{
    0
}

// The plan of every accepted net does so, or names a receiver whom no scheme whatever could serve.
pub fn plan_delivers_or_none_can() -> u8
    ensures { PlanDelivers }
{
    0
}
