// Making a plan.
ghost use Rattle.std.specs.Prelude.{◌≡◌, IfOk};
ghost use Rattle.network.specs.Values.{graph, value};
ghost use Rattle.wire.specs.Plan.{Fits};
ghost use Rattle.wire.specs.Values.{plan};
ghost use Rattle.planner_theory.specs.Plan.{route, plan_of};
ghost use Rattle.planner_theory.specs.Promise.{Main};
ghost use Rattle.planner.specs.Values.{Finds, Serving};

use crate::router::find_routes;
use crate::routes::Routes;
use coding::code;
use network::Multicast;
use std::alloc::{AllocError, Global};
use wire::Plan;

// The plan, and the routes that it was made from. Every receiver reads every message by it, or it names a receiver whom no scheme whatever could serve.
pub fn make_plan_with_routes(heap: Global, net: &Multicast) -> Result<(Routes, Plan), AllocError>
    ensures routes { IfOk result (λ x. Finds x.0 (route (graph net.now.network) net.now.rate net.now.receivers.items)) }
    ensures serves { IfOk result (λ x. Serving (value net.now) x.0) }
    ensures exact { IfOk result (λ x. plan x.1 ≡ plan_of (value net.now)) }
    ensures promise { IfOk result (λ x. Main (value net.now) (plan x.1)) }
    ensures fits { IfOk result (λ x. Fits (value net.now) (plan x.1)) }
{
    let routes = find_routes(heap, net)?;
    let plan = match &routes {
        Routes::Paths(aims) => Plan::Served(code(heap, &net.network, net.rate, aims)?),
        Routes::Cut { receiver, side } => Plan::Unserved {
            receiver: *receiver,
            side: *side,
        },
    };
    Ok((routes, plan))
}

// The plan alone.
pub fn make_plan(heap: Global, net: &Multicast) -> Result<Plan, AllocError>
    ensures exact { IfOk result (λ p. plan p ≡ plan_of (value net.now)) }
    ensures promise { IfOk result (λ p. Main (value net.now) (plan p)) }
    ensures fits { IfOk result (λ p. Fits (value net.now) (plan p)) }
{
    let (_routes, plan) = make_plan_with_routes(heap, net)?;
    Ok(plan)
}
