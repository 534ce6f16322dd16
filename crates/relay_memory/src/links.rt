// Lists of links and of nodes.
ghost use Rattle.std.specs.Prelude.{◌≡◌, ◌<◌, false, length, MatchOption, slice_index};
ghost use Rattle.relay_theory.specs.Relay.{is_in};
ghost use Rattle.delivery_theory.specs.Work.{place};

// Where a number stands in a list for the first time.
pub fn position(numbers: &[u16], number: u16) -> Option<usize>
    ensures { MatchOption result (is_in number numbers.now ≡ false) (λ i. (i < length numbers.now) × (slice_index numbers.now i ≡ number) × (i ≡ place number numbers.now)) }
{
    numbers.iter().position(|n| *n == number)
}
