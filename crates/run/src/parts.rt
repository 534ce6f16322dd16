// What goes over one link.
ghost use Rattle.std.specs.Prelude.{◌≡◌, ◌+◌, ◌-◌, ◌^◌, ◌<◌, true, length, if◌then◌else◌, slice_index, slice_set};
ghost use Rattle.relay_theory.specs.Relay.{is_in, at_source};
ghost use Rattle.relay_memory.specs.Values.{over_in};
ghost use Rattle.relay_node.specs.Values.{goes, scheme};
ghost use Rattle.run.specs.Zero.{zeros};

use gf_bytes::{PACKET_LENGTH, Packet};
use relay_node::Node;

// Whether a packet is all 0.
fn is_zero(packet: &Packet) -> bool
    ensures { result ≡ zeros packet.now }
{
    packet.iter().all(|x| *x == 0)
}

// A packet goes over link k: it counts unless it is all 0.
pub(crate) fn count(counts: &mut [u64], k: usize, packet: &Packet)
    requires { k < length counts.old }
    ensures { slice_index counts.old k < 2 ^ 64 - 1 → counts.new ≡ slice_set counts.old k (slice_index counts.old k + (if zeros packet.now then 0 else 1)) }
{
    let more = if is_zero(packet) { 0 } else { 1 };
    counts[k] = counts[k].saturating_add(more);
}

// The packet that a node sends over a link for the round that it has just ended.
pub(crate) fn packet_over(node: &Node, link: u16, round: u64) -> Packet
    ensures { is_in link (goes node.now) ≡ true → result ≡ at_source (scheme node.now) link (over_in node.now.slots round).came }
{
    match node.outs.iter().position(|out| out.link == link) {
        Some(out) => node.mix(round, out),
        // it has the link, so this is never sent
        None => [0; PACKET_LENGTH],
    }
}
