// Nothing gets across a cut: each function here has no other purpose than its contract, a theorem.
#![tactic(auto)]

ghost use Rattle.network_cuts.specs.Across.{Alike, NoneReads};

// Behind a cut of fewer than h links, two different messages of h packets give the receiver the same packets, whatever the scheme.
pub fn messages_look_alike() -> u8
    ensures { Alike }
{
    0
}

// So nothing that the receiver can do with its packets gives back every message.
pub fn no_receiver_reads() -> u8
    ensures { NoneReads }
{
    0
}
