// A net at work: its nodes, and what was counted.
ghost use Rattle.std.specs.Prelude.{◌≡◌, vec_len};

use network::Multicast;
use relay_node::Node;

#[derive(Drop)]
pub struct Player<'a> {
    pub net: &'a Multicast,
    // for each place of the net its node
    pub nodes: Vec<Node>,
    // how many messages were played; it may come to 2^32, so `play` asks that it be less
    pub round: u64,
    // for each link, how many of its packets were not all 0
    pub counts: Vec<u64>,
    ghost placed: { vec_len nodes ≡ net.now.network.nodes },
    ghost counted: { vec_len counts ≡ vec_len net.now.network.links },
}
