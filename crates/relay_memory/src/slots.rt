// The memory of a node: what came in for the round at work and the two that follow.
ghost use Rattle.std.specs.Prelude.{◌≡◌, ℕ, ◌+◌, ◌*◌, ◌^◌, ◌<◌, ◌≤◌, Some, None, vec_len, slice_index, slice_index_or};
ghost use Rattle.network.specs.Network.{Rising};

use gf_bytes::Packet;

// What comes in for round r over link ins[i] has the slot (r % 3) * ins.len() + i. The tag of a slot is the round of what is in it, if
// something is. So nothing need be cleared when a round ends. The packets of all slots lie in one list, since those of a round are mixed
// as one slice.
#[derive(Drop)]
pub struct Slots {
    // the links that come in, rising
    pub ins: Vec<u16>,
    // how many packets come in at once over a link: 1, and at the source as many as a message has
    pub width: usize,
    // the round at work; it goes one past the last number that a packet can have
    pub round: u64,
    pub tags: Vec<Option<u64>>,
    pub packets: Vec<Packet>,
    ghost rising: { Rising (vec_len ins) (λ i. slice_index ins.items i) },
    ghost few: { vec_len ins ≤ 1024 },
    ghost narrow: { width ≤ 32 },
    ghost tagged: { vec_len tags ≡ 3 * vec_len ins },
    ghost level: { vec_len packets ≡ 3 * vec_len ins * width },
    ghost recent: { (j r : ℕ) → slice_index_or tags.items j None ≡ Some r → r ≤ round + 2 },
    ghost bounded: { (j r : ℕ) → slice_index_or tags.items j None ≡ Some r → r < 2 ^ 32 },
    ghost counted: { round ≤ 2 ^ 32 },
}
