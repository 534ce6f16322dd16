// A worked run, and worked refusals: the function here has no other purpose than its contract.
#![tactic(auto)]

ghost use Rattle.run_examples.specs.Instance.{Computed};

// What comes of a run and of single arrivals is as worked out by hand, and the premises of the theorems can be met.
pub fn runs_go_as_computed() -> u8
    ensures { Computed }
{
    0
}
