// Worked examples of the definitions: one table, and that each of its rows holds.
#![tactic(auto)]

ghost use Rattle.std.specs.List.{All};
ghost use Rattle.worked_examples.specs.Table.{Holds, table};

pub fn worked_examples_hold() -> u8
    ensures { All Holds table }
{
    0
}
