// What carries a packet, and what is at hand at the beginning of a link.
// The rate h is a plain number, as the net has it: a type for its bound would be wrapped and unwrapped at each call.
ghost use Rattle.std.specs.Prelude.{◌≡◌, ℕ, ◌<◌, ◌≤◌, ◌^◌, map, length, IfOk};
ghost use Rattle.linear.specs.Vectors.{at, table, units};
ghost use Rattle.network.specs.Links.{links_of};
ghost use Rattle.coding_theory.specs.Coding.{message, on_carrier, incoming, at_hand};
ghost use Rattle.coding_steps.specs.Rows.{bytes_of, AllCounted};
ghost use Rattle.coding_steps.specs.Carriers.{carrier, number_of, Known};

use gf_bytes::Vector;
use network::Link;
use std::alloc::{AllocError, Global};

// A packet of the message itself, by its number, at the source; elsewhere a link.
#[derive(Clone, Copy, Debug, PartialEq, Eq)]
pub enum Carrier {
    Message(u16),
    Link(u16),
}

impl Carrier {
    // The link, where it is one.
    pub fn link(self) -> Option<u16>
        ensures { result ≡ number_of self }
    {
        match self {
            Carrier::Message(_) => None,
            Carrier::Link(k) => Some(k),
        }
    }

    // The vector of the packet, where those of the links so far are given.
    pub fn vector(self, h: usize, vectors: &[Vector]) -> Vector
        requires rate { (h ≤ 32) × (AllCounted h vectors.now) }
        requires known { Known h (length vectors.now) (carrier self) }
        ensures count { result.count ≡ h }
        ensures bytes { (x : ℕ) → x < h → at result.bytes x ≡ at (on_carrier (units h) (bytes_of vectors.now) (carrier self)) x }
    {
        match self {
            Carrier::Message(i) => Vector::unit(h, i as usize).unwrap(),
            Carrier::Link(k) => vectors[k as usize],
        }
    }
}

// The packets of the message, of which there are h.
pub fn messages(heap: Global, h: usize) -> Result<Vec<Carrier>, AllocError>
    requires { h ≤ 32 }
    ensures { IfOk result (λ v. map carrier v.items ≡ table h message) }
{
    (0..h).map(|i| Carrier::Message(i as u16)).collect(heap)
}

// The links that lead into a node, as carriers: by a definition of their own, so no list of numbers is made first.
fn links_into(heap: Global, links: &[Link], node: u16) -> Result<Vec<Carrier>, AllocError>
    requires { length links.now ≤ 2 ^ 16 }
    ensures { IfOk result (λ v. map carrier v.items ≡ incoming node 0 (links_of links.now)) }
{
    let mut hands = Vec::new(heap);
    for (k, link) in links.iter().enumerate() {
        if link.to == node {
            hands.push(Carrier::Link(k as u16))?;
        }
    }
    Ok(hands)
}

// The packets at hand at a node, after these links.
pub fn at_hand(
    heap: Global,
    h: usize,
    node: u16,
    links: &[Link],
) -> Result<Vec<Carrier>, AllocError>
    requires { (h ≤ 32) × (length links.now ≤ 2 ^ 16) }
    ensures { IfOk result (λ v. map carrier v.items ≡ at_hand h node (links_of links.now)) }
{
    if node == 0 {
        messages(heap, h)
    } else {
        links_into(heap, links, node)
    }
}
