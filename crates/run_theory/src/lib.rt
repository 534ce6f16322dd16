// Relays and receivers at work in a whole network, whatever the order in which packets arrive: each function here has no other purpose than its contract, theorems.
#![tactic(auto)]

ghost use Rattle.run_theory.specs.Promise.{AllOut, CanArrive, EachArrived, FewArrivals, MayBegin, MessagesThemselves, NoneRefused, OnceOnly, Prompt, PutOut, UnderWay, Whereabouts};

// What is under way, and what receivers have put out, is what the synchronous network has.
pub fn rounds_agree() -> u8
    ensures whereabouts { Whereabouts }
    ensures way { UnderWay }
    ensures out { PutOut }
    ensures messages { MessagesThemselves }
{
    0
}

// When nothing is under way, receivers have put out all that was begun, and the source may go on.
pub fn all_is_put_out() -> u8
    ensures all { AllOut }
    ensures prompt { Prompt }
    ensures more { MayBegin }
{
    0
}

// Where the source waits for the third round before, no packet is refused, and each can arrive at any time; a second one is always refused.
pub fn none_is_refused() -> u8
    ensures arrive { CanArrive }
    ensures none { NoneRefused }
    ensures once { OnceOnly }
{
    0
}

// There are as many arrivals as links and messages, and no more.
pub fn arrivals_end() -> u8
    ensures few { FewArrivals }
    ensures each { EachArrived }
{
    0
}
