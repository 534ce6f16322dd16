// Where a link lies on paths.
ghost use Rattle.std.specs.Prelude.{◌≡◌, ◌<◌, ◌≤◌, map, length, MatchOption, vec_items};
ghost use Rattle.coding_theory.specs.Coding.{place};

// The number of the first path on which the link lies.
pub fn place(paths: &[Vec<u16>], link: u16) -> Option<usize>
    ensures { MatchOption result (length paths.now ≤ place link (map vec_items paths.now)) (λ j. (j < length paths.now) × (j ≡ place link (map vec_items paths.now))) }
{
    paths.iter().position(|path| path.contains(&link))
}
