// The node at a place of a net.
ghost use Rattle.std.specs.Prelude.{IfOk};
ghost use Rattle.network.specs.Values.{value};
ghost use Rattle.wire.specs.Values.{plan as plan_of};
ghost use Rattle.relay_node.specs.Nodes.{Begun};
ghost use Rattle.relay_console.specs.Places.{AtWork, refusal_of};

use crate::role::Role;
use console::{Program, Stopped};
use relay_node::{Node, NodeError};
use std::alloc::Global;
use wire::{Fitted, Plan};

fn node_at(heap: Global, fitted: &Fitted, place: u16, role: Role) -> Result<Node, NodeError>
    ensures { Begun (value fitted.now.net.now) (plan_of fitted.now.plan.now) place (refusal_of role (value fitted.now.net.now) (plan_of fitted.now.plan.now) place) result }
{
    match role {
        Role::Relay => Node::new(heap, fitted, place),
        Role::Receiver => Node::receiver(heap, fitted, place),
    }
}

// Reads the net and its plan, and makes the node at a place, or says why not: of the net, the plan and the place the first that is at fault.
pub fn read_node(
    program: Program,
    net_path: &str,
    plan_path: &str,
    place: &str,
    role: Role,
) -> Result<Node, Stopped>
    ensures { IfOk result (λ d. AtWork role d) }
{
    let net = program.read_net(net_path)?;
    let plan = program.read_plan(plan_path, &net)?;
    if let Plan::Unserved { .. } = plan {
        let name = program.name;
        eprintln!(program.rt;
            "{name}: {plan_path}: fault 9: a plan with a cut, by which no one is served"
        )?;
        return Err(Stopped);
    }
    let number = place.parse::<u16>().map_err(|_| NodeError::Missing);
    let number = program.or_stop(place, number)?;
    let fitted = Fitted {
        net: &net,
        plan: &plan,
    };
    let node = node_at(program.rt.alloc(), &fitted, number, role);
    program.or_stop(place, node)
}
