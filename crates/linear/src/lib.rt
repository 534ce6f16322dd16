// Linear algebra over any field: each function here has no other purpose than its contract, a theorem.
#![tactic(auto)]

ghost use Rattle.gf.specs.Field.{Field};
ghost use Rattle.linear.specs.Choice.{ForbidsAtMostOne, ForbidsNone, SomeLeft, TFound};
ghost use Rattle.linear.specs.Dual.{InverseIndependent, RenewKeeps, RowsExist, TestDecides, UnitsDual};
ghost use Rattle.linear.specs.Independence.{MixWords, OneVectorAlone, UsualWords};
ghost use Rattle.linear.specs.Lowest.{LowestFound};
ghost use Rattle.linear.specs.Reading.{IndependentRead, MixesDelivered, OnlyRows, RowsRead};
ghost use Rattle.linear.specs.Transport.{Transport, Unmixed};
ghost use Rattle.linear.specs.Vectors.{Mixes};

// Sums, multiples and mixes are taken place by place; the mix of nothing is 0, and mixes of sums are sums of mixes.
pub fn mixes_place_by_place() -> u8
    ensures { (F : Field) → Mixes F }
{
    0
}

// In the definition of independence, a mix is what `mix` makes.
pub fn independence_by_mixes() -> u8
    ensures { (F : Field) → MixWords F }
{
    0
}

// One vector is independent just where it isn't 0.
pub fn one_vector_alone() -> u8
    ensures { (F : Field) → OneVectorAlone F }
{
    0
}

// That none of the vectors is a mix of the others says the same as that only the coefficients 0 mix them to 0.
pub fn independence_in_usual_words() -> u8
    ensures { (F : Field) → UsualWords F }
{
    0
}

// The search for the lowest number that passes a test finds it, where there is one.
pub fn lowest_is_found() -> u8
    ensures { LowestFound }
{
    0
}

// Unit vectors are their own dual rows.
pub fn units_are_their_own_rows() -> u8
    ensures { (F : Field) → UnitsDual F }
{
    0
}

// Vectors with dual rows are independent.
pub fn rows_show_independence() -> u8
    ensures { (F : Field) → InverseIndependent F }
{
    0
}

// Independent vectors have dual rows.
pub fn independent_vectors_have_rows() -> u8
    ensures { (F : Field) → RowsExist F }
{
    0
}

// With v in place of vector j, vectors stay independent just where dual row j times v isn't 0.
pub fn row_decides_independence() -> u8
    ensures { (F : Field) → TestDecides F }
{
    0
}

// Where dual row j times v isn't 0, the renewed rows are dual rows of the vectors with v in place of vector j.
pub fn renewed_rows_stay_dual() -> u8
    ensures { (F : Field) → RenewKeeps F }
{
    0
}

// The packets of a message are its mixes by the unit vectors.
pub fn message_is_unmixed() -> u8
    ensures { (F : Field) → Unmixed F }
{
    0
}

// If each vector says which mix of the message its packet is, the mix of the vectors says which the mix of the packets is.
pub fn mixes_are_carried_on() -> u8
    ensures { (F : Field) → Transport F }
{
    0
}

// The mixes of a message by vectors are packets of which the vectors say which mix they are.
pub fn mixes_are_delivered() -> u8
    ensures { (F : Field) → MixesDelivered F }
{
    0
}

// By the dual rows of their vectors, transposed, every message is read from packets that are its mixes by the vectors.
pub fn dual_rows_read() -> u8
    ensures { (F : Field) → RowsRead F }
{
    0
}

// No other rows of field elements read every message of packets with any elements.
pub fn no_other_rows_read() -> u8
    ensures { (F : Field) → OnlyRows F }
{
    0
}

// From packets with independent vectors every message is read, by one choice of rows and no other.
pub fn independent_vectors_are_read() -> u8
    ensures { (F : Field) → IndependentRead F }
{
    0
}

// A receiver that is served already forbids at most one coefficient of the trial set.
pub fn served_row_forbids_at_most_one() -> u8
    ensures { (F : Field) → ForbidsAtMostOne F }
{
    0
}

// A receiver that isn't served yet, and that the trial set alone would serve, forbids none but 0.
pub fn unserved_row_forbids_none() -> u8
    ensures { (F : Field) → ForbidsNone F }
{
    0
}

// Where fewer than size - 1 forbid at most one number each, one of those from 1 to size - 1 is left.
pub fn some_number_is_left() -> u8
    ensures { SomeLeft }
{
    0
}

// With fewer than size - 1 receivers served already, there is a lowest coefficient that serves all, and the search finds it.
pub fn serving_coefficient_is_found() -> u8
    ensures { (F : Field) → TFound F }
{
    0
}
