// Sums, products and inverses of bytes: the sum is `^`, and products are taken modulo x^8 + x^4 + x^3 + x + 1.
ghost use Rattle.std.specs.Prelude.{◌≡◌, ◌<◌};
ghost use Rattle.gf_bytes.specs.Byte.{times, times_x};

use crate::inverses::INVERSES;

// The product with x.
pub fn double(a: u8) -> u8
    ensures shift { result ≡ times_x a }
    ensures value { result ≡ times 2 a }
{
    (a << 1) ^ ((a >> 7) * 0x1b)
}

// The product of two bytes. It has no branch, so that the compiler can take many products at once.
pub fn mul(a: u8, b: u8) -> u8
    ensures { result ≡ times a b }
{
    let mut sum = 0;
    let mut power = a;
    for i in 0..8u8 {
        sum ^= ((b >> i) & 1) * power;
        power = double(power);
    }
    sum
}

// The byte whose product with `a` is 1.
pub fn inverse(a: u8) -> u8
    requires { 0 < a }
    ensures { times a result ≡ 1 }
{
    INVERSES[a as usize]
}
