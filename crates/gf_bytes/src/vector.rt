// Coding vectors: up to 32 coefficients, passed by value.
ghost use Rattle.std.specs.Prelude.{◌≡◌, ℕ, ◌<◌, ◌≤◌, min, max, ◌⊎◌, length, take, replicate, MatchOption, slice_index, slice_set};
ghost use Rattle.gf_bytes.specs.Vector.{MultipleOf, SumOf, dot_of};

use crate::byte::mul;
use std::ops::Add;

pub const MAX_COUNT: usize = 32;

// The first `count` bytes are the coefficients. The others are 0, so that vectors of different counts can be added
// and multiplied as if the shorter one went on with zeros. An array and a count, since it is copied and nothing of it may ask for memory.
#[derive(Clone, Copy, Debug, PartialEq, Eq)]
pub struct Vector {
    bytes: [u8; MAX_COUNT],
    count: u8,
    ghost within: { count ≤ 32 },
    ghost padded: { (k : ℕ) → count ≤ k → k < 32 → slice_index bytes k ≡ 0 },
}

impl Vector {
    // Coefficients that are all 0; none where the count is above 32.
    pub fn zero(count: usize) -> Option<Vector>
        ensures { MatchOption result (32 < count) (λ v. (v.count ≡ count) × (v.bytes ≡ replicate 32 0)) }
    {
        if count > MAX_COUNT {
            return None;
        }
        Some(Vector {
            bytes: [0; MAX_COUNT],
            count: count as u8,
        })
    }

    // The coefficient at `i` is 1, and the others are 0; none where the count is above 32, or `i` is not below it.
    pub fn unit(count: usize, i: usize) -> Option<Vector>
        ensures { MatchOption result ((32 < count) ⊎ (count ≤ i)) (λ v. (i < count) × (v.count ≡ count) × (v.bytes ≡ slice_set (replicate 32 0) i 1)) }
    {
        let mut v = Vector::zero(count)?;
        if i >= count {
            return None;
        }
        v.bytes[i] = 1;
        Some(v)
    }

    // How many coefficients there are.
    pub fn count(self) -> usize
        ensures { result ≡ self.count }
    {
        self.count as usize
    }

    fn coefficients(&self) -> &[u8]
        ensures value { result.now ≡ take self.now.count self.now.bytes }
        ensures count { length result.now ≡ self.now.count }
    {
        &self.bytes[..self.count()]
    }

    // The coefficient at `i`, and 0 past the last one.
    pub fn at(self, i: usize) -> u8
        ensures { result ≡ slice_index self.bytes i }
    {
        self.bytes.get(i).copied().unwrap_or(0)
    }

    // The sum, with as many coefficients as the longer one has.
    pub fn plus(self, other: Vector) -> Vector
        ensures count { result.count ≡ max self.count other.count }
        ensures bytes { SumOf self.bytes other.bytes result.bytes }
    {
        let mut bytes = self.bytes;
        // By place, as in `add_multiple`.
        for (i, byte) in other.bytes.iter().enumerate() {
            bytes[i] ^= *byte;
        }
        Vector {
            bytes,
            count: self.count.max(other.count),
        }
    }

    // Each coefficient times `factor`.
    pub fn scaled(self, factor: u8) -> Vector
        ensures count { result.count ≡ self.count }
        ensures bytes { MultipleOf factor self.bytes result.bytes }
    {
        let mut bytes = self.bytes;
        for byte in bytes.iter_mut() {
            *byte = mul(factor, *byte);
        }
        Vector {
            bytes,
            count: self.count,
        }
    }

    // The sum of the products of the coefficients that stand at the same place.
    pub fn dot(self, other: Vector) -> u8
        ensures { result ≡ dot_of (min self.count other.count) self.bytes other.bytes }
    {
        let mut total = 0;
        for (a, b) in self.coefficients().iter().zip(other.coefficients()) {
            total ^= mul(*a, *b);
        }
        total
    }
}

impl Add<Vector> for Vector {
    type Output = Vector;

    ghost add_gives = { λ a b r. (r.count ≡ max a.count b.count) × SumOf a.bytes b.bytes r.bytes };

    fn add(self, other: Vector) -> Vector {
        self.plus(other)
    }
}
