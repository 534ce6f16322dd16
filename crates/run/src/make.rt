// The player of a net, before the first message.
ghost use Rattle.std.specs.Prelude.{◌≡◌, ◌≤◌, IfOk, vec_len, OnOk};
ghost use Rattle.network.specs.Values.{value};
ghost use Rattle.wire.specs.Values.{plan as plan_of};
ghost use Rattle.planner_theory.specs.Plan.{plan_of as prescribed};
ghost use Rattle.delivery_theory.specs.Promise.{AtWork};
ghost use Rattle.run.specs.Starting.{Filled, Started};

use crate::player::Player;
use relay_node::{Node, NodeError};
use std::alloc::Global;
use wire::Fitted;

// The nodes at the places before `end`, by number, which is what a node is made by.
fn nodes_before(heap: Global, fitted: &Fitted, end: u16) -> Result<Vec<Node>, NodeError>
    requires { end ≤ fitted.now.net.now.network.nodes }
    ensures { Filled (value fitted.now.net.now) (plan_of fitted.now.plan.now) end result }
{
    let mut nodes = Vec::new(heap);
    for p in 0..end {
        nodes.push(Node::new(heap, fitted, p)?)?;
    }
    Ok(nodes)
}

impl<'a> Player<'a> {
    // The player of a net by a plan that serves all its receivers: in every run by the plan that is prescribed for the net each gets every message.
    pub fn new(heap: Global, fitted: &Fitted<'a, '_>) -> Result<Player<'a>, NodeError>
        ensures started { Started (value fitted.now.net.now) (plan_of fitted.now.plan.now) result }
        ensures promise { OnOk result ((plan_of fitted.now.plan.now ≡ prescribed (value fitted.now.net.now) → AtWork (value fitted.now.net.now) (plan_of fitted.now.plan.now))) }
        ensures net { IfOk result (λ y. (y.net.now ≡ fitted.now.net.now) × (y.round ≡ 0)) }
    {
        let net = fitted.net;
        let nodes = nodes_before(heap, fitted, net.network.nodes)?;
        let counts = vec![in heap; 0u64; net.network.links.len()]?;
        Ok(Player {
            net,
            nodes,
            round: 0,
            counts,
        })
    }
}
