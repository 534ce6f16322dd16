// The plan of a net.
#![tactic(auto)]

mod maker;
mod router;
mod routes;

pub use maker::{make_plan, make_plan_with_routes};
pub use router::find_routes;
pub use routes::Routes;
pub use wire::Plan;
