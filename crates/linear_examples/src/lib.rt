// Worked instances of the theorems on linear algebra: the function here has no other purpose than its contract.
#![tactic(auto)]

ghost use Rattle.linear_examples.specs.Instances.{Met};

// The premises of the theorems can be met.
pub fn premises_can_be_met() -> u8
    ensures { Met }
{
    0
}
