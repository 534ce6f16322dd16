// The search for a path, breadth first.
ghost use Rattle.std.specs.Prelude.{◌≡◌, ℕ, ◌<◌, false, length, replicate, vec_items, vec_len, IfOk, OnOk, if◌then◌else◌, slice_index, slice_index_or};
ghost use Rattle.flow_theory.specs.Flow.{flagged, go_on, onward, over, start};
ghost use Rattle.network.specs.Links.{begin_of, end_of};
ghost use Rattle.network.specs.Values.{graph};
ghost use Rattle.flow_search.specs.Queue.{ways_of, Queued, Bounded, Sought};

use crate::adjacency::Adjacency;
use crate::reached::Reached;
use network::Link;
use std::alloc::{AllocError, Global};

// The search over the links of a network, some of which are used.
#[derive(Drop)]
pub struct Search<'a> {
    pub adjacency: &'a Adjacency<'a>,
    // whether each link is used
    pub used: Vec<bool>,
    // the nodes that are reached, in their order
    pub order: Vec<Reached>,
    // whether each node is among them
    pub marks: [bool; 256],
    ghost level: { vec_len used ≡ length (graph adjacency.now.network.now).links },
    ghost marked: { length marks ≡ 256 },
    ghost queued: { Queued (vec_len used) order.items marks },
}

// Where a step over link k leads: back to its beginning, which only a used link allows, or on to its end.
fn lead(links: &[Link], k: usize, back: bool) -> u16
    requires { k < length links.now }
    ensures { result ≡ (if back then begin_of links.now k else end_of links.now k) }
{
    let link = links[k];
    if back { link.from } else { link.to }
}

impl<'a> Search<'a> {
    // Nothing is used, and nothing reached.
    pub fn new(heap: Global, adjacency: &'a Adjacency<'a>) -> Result<Search<'a>, AllocError>
        ensures { IfOk result (λ s. (s.adjacency.now ≡ adjacency.now) × (s.used.items ≡ replicate (length (graph adjacency.now.network.now).links) false)) }
    {
        let used = vec![in heap; false; adjacency.network.links.len()]?;
        let order = Vec::with_capacity(heap, adjacency.network.nodes as usize)?;
        Ok(Search {
            adjacency,
            used,
            order,
            marks: [false; 256],
        })
    }

    // From the node at a place over those links of a list whose flag is `back`, as used ones are gone over back: it is compared with flags, so
    // it is one.
    fn go_over(&mut self, row: &[u16], back: bool, place: u16) -> Result<(), AllocError>
        requires row { (j : ℕ) → j < length row.now → slice_index row.now j < vec_len self.old.used }
        requires place { place < vec_len self.old.order }
        ensures ways { OnOk result (ways_of self.new.order.items ≡ go_on (over (graph self.old.adjacency.now.network.now).links self.old.used.items) (slice_index_or (ways_of self.old.order.items) place start) (flagged self.old.used.items back row.now) (ways_of self.old.order.items)) }
        ensures same { (self.new.adjacency ≡ self.old.adjacency) × (self.new.used ≡ self.old.used) }
    {
        // taken out of the network once, and not for each link
        let links = self.adjacency.network.links.as_slice();
        for link in row {
            let k = *link as usize;
            let node = lead(links, k, back);
            if self.used[k] == back && !self.marks[node as usize] {
                self.order.push(Reached {
                    node,
                    link: *link,
                    place,
                })?;
                self.marks[node as usize] = true;
            }
        }
        Ok(())
    }

    // From the node at a place along the unused links out of it, then back along the used links into it.
    fn visit(&mut self, place: u16) -> Result<(), AllocError>
        requires place { place < vec_len self.old.order }
        requires bounded { Bounded self.old.adjacency.now.network.now.nodes (ways_of self.old.order.items) }
        ensures ways { OnOk result (ways_of self.new.order.items ≡ onward (graph self.old.adjacency.now.network.now).links self.old.used.items (slice_index_or (ways_of self.old.order.items) place start) (ways_of self.old.order.items)) }
        ensures same { (self.new.adjacency ≡ self.old.adjacency) × (self.new.used ≡ self.old.used) }
    {
        let node = self.order[place as usize].node as usize;
        let adjacency = self.adjacency;
        self.go_over(&adjacency.out[node], false, place)?;
        self.go_over(&adjacency.into[node], true, place)
    }

    // Reaches nodes from the source on, until the receiver is among them or there is none left to go on from.
    pub fn run(&mut self, receiver: u16) -> Result<(), AllocError>
        requires { receiver < self.old.adjacency.now.network.now.nodes }
        ensures sought { OnOk result (Sought (graph self.old.adjacency.now.network.now) self.old.used.items receiver (ways_of self.new.order.items)) }
        ensures same { (self.new.adjacency ≡ self.old.adjacency) × (self.new.used ≡ self.old.used) }
    {
        self.order.clear();
        self.marks = [false; 256];
        self.order.push(Reached {
            node: 0,
            link: 0,
            place: 0,
        })?;
        self.marks[0] = true;
        // by number, since the queue grows while it is gone through
        for place in 0..self.adjacency.network.nodes {
            if place as usize >= self.order.len() || self.marks[receiver as usize] {
                break;
            }
            self.visit(place)?;
        }
        Ok(())
    }
}
