// Coefficients for all receivers at once: each function here has no other purpose than its contract, a theorem.
#![tactic(auto)]

ghost use Rattle.coding_theory.specs.Promise.{AllAtOnce, AsPrescribed};

// Over any field, in any network, the coefficients serve every receiver, as long as there are fewer receivers than elements.
pub fn all_receivers_are_served() -> u8
    ensures { AllAtOnce }
{
    0
}

// The coefficients are those that the rule prescribes in the subject's words, and no others are.
pub fn coefficients_are_prescribed() -> u8
    ensures { AsPrescribed }
{
    0
}
