// A relay, a receiver, a node that is both, or the source.
ghost use Rattle.std.specs.Prelude.{◌≡◌, ℕ, ◌*◌, ◌<◌, false, map, vec_len, slice_index};
ghost use Rattle.std.specs.List.{All};
ghost use Rattle.network.specs.Network.{Rising};

use relay_memory::Slots;

// A link that goes out.
#[derive(Drop)]
pub struct Out {
    pub link: u16,
    // one for each packet that comes in for a round
    pub coefficients: Vec<u8>,
}

// A node that is no receiver has no links in `current`, and one that is no relay has none in `outs`.
#[derive(Drop)]
pub struct Node {
    // whether messages come in, as at the source, or packets; it never changes
    pub source: bool,
    pub slots: Slots,
    // the links that go out, rising
    pub outs: Vec<Out>,
    // where the links from which the receiver reads stand among those that come in
    pub current: Vec<u16>,
    // for each packet of a message a row of coefficients, one for each of those links; each row goes over all of `current`, so the two
    // are no list of pairs
    pub rows: Vec<Vec<u8>>,
    ghost apart: { Rising (vec_len outs) (λ i. slice_index (map (λ o. o.link) outs.items) i) },
    ghost coded: { All (λ o. vec_len o.coefficients ≡ vec_len slots.ins * slots.width) outs.items },
    ghost within: { (i : ℕ) → i < vec_len current → slice_index current.items i < vec_len slots.ins * slots.width },
    ghost square: { vec_len rows ≡ vec_len current },
    ghost long: { All (λ row. vec_len row ≡ vec_len current) rows.items },
    ghost single: { source ≡ false → slots.width ≡ 1 },
}
