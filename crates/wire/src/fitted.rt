// Plans with their nets.
ghost use Rattle.network.specs.Values.{value};
ghost use Rattle.wire.specs.Plan.{Fits};
ghost use Rattle.wire.specs.Values.{plan as planned};
ghost use Rattle.wire.specs.Fitted.{Fits-prop};

use crate::plan::Plan;
use network::Multicast;

// A plan with the net that it fits. The net may be borrowed for longer than the plan.
#[derive(Clone, Copy)]
pub struct Fitted<'n, 'p> {
    pub net: &'n Multicast,
    pub plan: &'p Plan,
    ghost fits: { Fits (value net.now) (planned plan.now) } by { Fits-prop net.now (planned plan.now) },
}
