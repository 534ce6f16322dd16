// Networks whose coefficients are worked out: the function here has no other purpose than its contract.
#![tactic(auto)]

ghost use Rattle.std.specs.List.{All};
ghost use Rattle.coding_examples.specs.Table.{Worked, worked};

// In each network of the table the premises of the theorems are met, and the definition answers what the table says.
pub fn worked_networks_hold() -> u8
    ensures { All Worked worked }
{
    0
}
