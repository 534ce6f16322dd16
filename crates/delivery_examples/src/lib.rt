// A net and a plan for which the theorems on delivery say something: the function here has no other purpose than its contract.
#![tactic(auto)]

ghost use Rattle.delivery_examples.specs.Instance.{Met};

// The premises of the theorems can be met.
pub fn the_premises_can_be_met() -> u8
    ensures { Met }
{
    0
}
