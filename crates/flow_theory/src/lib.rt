// Paths that share no link, or a cut: how they are found, and what is proved of it. Nothing here runs.
#![tactic(auto)]

ghost use Rattle.flow_theory.specs.Promise.{FirstFound, NotBoth, OnlyOne, PathsOrCut};

// For every network, number of paths and receiver, either so many paths are found that share no link, or a cut of fewer links.
pub fn paths_or_cut_stands() -> u8
    ensures { PathsOrCut }
{
    0
}

// Where there are so many paths, there is no such cut.
pub fn paths_exclude_cut() -> u8
    ensures { NotBoth }
{
    0
}

// Whatever links are used, the search finds the first of the shortest walks to each node that can be reached, and no other node.
pub fn search_finds_the_first() -> u8
    ensures found { FirstFound }
    ensures only { OnlyOne }
{
    0
}
