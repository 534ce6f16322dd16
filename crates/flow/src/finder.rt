// Paths that share no link, or a cut.
ghost use Rattle.std.specs.Prelude.{◌<◌, IfOk, IfErr};
ghost use Rattle.network.specs.Values.{graph};
ghost use Rattle.flow_theory.specs.Flow.{paths_or_cut};
ghost use Rattle.flow.specs.Found.{Means, Serves, Refuses};

use crate::augmentation::use_paths;
use crate::decomposition::part;
use crate::found::{Found, Refusal};
use flow_search::{Adjacency, Search};
use std::alloc::{AllocError, Global};

// Finds h paths from the source to the receiver that share no link, or a cut out of which fewer than h links lead.
pub fn paths_or_cut(
    heap: Global,
    adjacency: &Adjacency,
    receiver: u16,
    h: u8,
) -> Result<Found, Refusal>
    ensures exact { IfOk result (λ f. Means f (paths_or_cut (graph adjacency.now.network.now) h receiver)) }
    ensures serves { IfOk result (λ f. Serves (graph adjacency.now.network.now) h receiver f) }
    ensures refuses { IfErr result (λ e. Refuses (graph adjacency.now.network.now) receiver e) }
{
    if receiver == 0 || receiver >= adjacency.network.nodes {
        return Err(Refusal::NoReceiver);
    }
    Ok(find(heap, adjacency, receiver, h)?)
}

// For a node that is there and is not the source: only memory can be wanting.
pub fn find(heap: Global, adjacency: &Adjacency, receiver: u16, h: u8) -> Result<Found, AllocError>
    requires { (0 < receiver) × (receiver < adjacency.now.network.now.nodes) }
    ensures exact { IfOk result (λ f. Means f (paths_or_cut (graph adjacency.now.network.now) h receiver)) }
    ensures serves { IfOk result (λ f. Serves (graph adjacency.now.network.now) h receiver f) }
{
    let mut search = Search::new(heap, adjacency)?;
    match use_paths(&mut search, receiver, h)? {
        Some(reached) => Ok(Found::Cut(reached)),
        None => Ok(Found::Paths(part(heap, &mut search, receiver, h)?)),
    }
}
