// Paths for all receivers, or the first with a cut.
ghost use Rattle.std.specs.Prelude.{IfOk};
ghost use Rattle.network.specs.Values.{graph, value};
ghost use Rattle.planner_theory.specs.Plan.{route};
ghost use Rattle.planner.specs.Values.{Finds, Serving};

use crate::routes::Routes;
use coding::Aim;
use flow::{Found, find};
use flow_search::Adjacency;
use network::Multicast;
use std::alloc::{AllocError, Global};

// Goes through the receivers in order.
pub fn find_routes(heap: Global, net: &Multicast) -> Result<Routes, AllocError>
    ensures exact { IfOk result (λ x. Finds x (route (graph net.now.network) net.now.rate net.now.receivers.items)) }
    ensures serves { IfOk result (λ x. Serving (value net.now) x) }
{
    let adjacency = Adjacency::of(heap, &net.network)?;
    let mut aims = Vec::new(heap);
    for &node in &net.receivers {
        match find(heap, &adjacency, node, net.rate)? {
            Found::Paths(paths) => aims.push(Aim { node, paths })?,
            Found::Cut(side) => {
                return Ok(Routes::Cut {
                    receiver: node,
                    side,
                });
            }
        }
    }
    Ok(Routes::Paths(aims))
}
