// One relay or receiver, round by round: each function here has no other purpose than its contract, a theorem.
#![tactic(auto)]

ghost use Rattle.std.specs.Prelude.{List};
ghost use Rattle.network_cuts.specs.Scheme.{Packet};
ghost use Rattle.relay_theory.specs.Law.{Begins, Lawful};
ghost use Rattle.relay_theory.specs.Mapped.{Alone};

// Rounds end in order, each when the last of its packets has come, and what is sent for a round is what the scheme makes of its packets, sent once.
pub fn relays_keep_the_law() -> u8
    ensures packets { Lawful Packet }
    ensures messages { Lawful (List Packet) }
{
    0
}

// The source is a relay to which whole messages come in.
pub fn source_sends_each_message() -> u8
    ensures { Begins }
{
    0
}

// What a relay of packets does is what the same relay does to which each packet comes as a list of one. So one program serves relays and the source.
pub fn packets_may_come_as_lists() -> u8
    ensures { Alone }
{
    0
}
