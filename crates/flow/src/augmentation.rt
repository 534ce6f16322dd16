// One path after the other, by the links that they use.
ghost use Rattle.std.specs.Prelude.{◌≡◌, ◌<◌, ◌==◌, IfOk, vec_len, position, slice_index_or};
ghost use Rattle.network.specs.Values.{graph};
ghost use Rattle.flow_theory.specs.Flow.{start, turn_all};
ghost use Rattle.flow.specs.Augment.{Grown};
ghost use Rattle.flow_search.specs.Queue.{ways_of};

use flow_search::{Reached, Search};
use std::alloc::AllocError;

// Uses the links of `count` paths to the receiver. If there are not so many, the answer has the nodes that the last search reached.
pub fn use_paths(
    search: &mut Search,
    receiver: u16,
    count: u8,
) -> Result<Option<[bool; 256]>, AllocError>
    requires { receiver < search.old.adjacency.now.network.now.nodes }
    ensures grown { IfOk result (λ o. Grown (graph search.old.adjacency.now.network.now) count receiver search.old.used.items search.new.used.items o) }
    ensures same { search.new.adjacency ≡ search.old.adjacency }
{
    for _ in 0..count {
        search.run(receiver)?;
        let Some(place) = place_of(&search.order, receiver) else {
            return Ok(Some(search.marks));
        };
        turn_path(search, place);
    }
    Ok(None)
}

// The place at which a node was reached.
fn place_of(order: &[Reached], node: u16) -> Option<usize>
    ensures { result ≡ position (λ r. r.node == node) order.now }
{
    order.iter().position(|reached| reached.node == node)
}

// Turns the links that led to the node at a place: those that were not used become used, and the others are given back.
fn turn_path(search: &mut Search, place: usize)
    requires { place < vec_len search.old.order }
    ensures used { search.new.used.items ≡ turn_all (slice_index_or (ways_of search.old.order.items) place start).links search.old.used.items }
    ensures same { search.new.adjacency ≡ search.old.adjacency }
{
    let mut at = place;
    while at > 0 {
        let reached = search.order[at];
        let link = reached.link as usize;
        search.used[link] = !search.used[link];
        at = reached.place as usize;
    }
}
