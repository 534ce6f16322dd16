// What holds of all nodes: each function here has no other purpose than its contract, a theorem.
ghost use Rattle.relay_node.specs.Records.{ReadBack};
ghost use Rattle.relay_node.specs.Packets.{OneByOne};
ghost use Rattle.relay_node.specs.Relays.{Relays, Sources};

// What is written as a record is read back.
pub fn records_are_read_back() -> u8
    ensures { ReadBack }
{
    0
}

// A node at work by a plan is the relay, the receiver or the source of the runs that are played by the plan's scheme.
pub fn nodes_relay() -> u8
    ensures relays { Relays }
    ensures source { Sources }
{
    0
}

// What a node that is not the source does with packets one by one, by sums of bytes.
pub fn packets_one_by_one() -> u8
    ensures { OneByOne }
{
    0
}
