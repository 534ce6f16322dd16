// The fields of 256 and of 65,536 elements. Each function here is a theorem: its contract is the statement, and its
// answer means nothing.
#![tactic(auto)]

ghost use Rattle.std.specs.Prelude.{ℕ};
ghost use Rattle.gf.specs.Laws.{IsField};
ghost use Rattle.gf.specs.Polynomial.{Degree, MulIsRemainder, NoFactors, mul};

// Modulo any polynomial of degree d, the product of two polynomials below degree d is the remainder of their product.
pub fn products_are_remainders() -> u8
    ensures { (d p : ℕ) → Degree d p → MulIsRemainder d p }
{
    0
}

// x^8 + x^4 + x^3 + x + 1 is no product of two polynomials but for 1 and itself.
pub fn byte_polynomial_has_no_factors() -> u8
    ensures { NoFactors 0x11b }
{
    0
}

// Nor is x^16 + x^12 + x^3 + x + 1.
pub fn word_polynomial_has_no_factors() -> u8
    ensures { NoFactors 0x1100b }
{
    0
}

// Bytes, with exclusive or for the sum, are a field.
pub fn bytes_are_a_field() -> u8
    ensures { IsField 256 (mul 8 0x11b) }
{
    0
}

// So are numbers of 16 bits.
pub fn words_are_a_field() -> u8
    ensures { IsField 65536 (mul 16 0x1100b) }
{
    0
}
