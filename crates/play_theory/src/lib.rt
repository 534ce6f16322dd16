// One message after the other, over a network in which nothing else is under way: the functions here have no other purpose than their contracts.
#![tactic(auto)]

ghost use Rattle.play_theory.specs.Round.{AllEnded, Began, OneMore, Passes, Plays};

// A message begins, its packets arrive in the order of the links, none is refused, and nothing is left under way.
pub fn messages_play_one_by_one() -> u8
    ensures begins { Began }
    ensures passes { Passes }
    ensures plays { Plays }
    ensures ended { AllEnded }
    ensures out { OneMore }
{
    0
}
