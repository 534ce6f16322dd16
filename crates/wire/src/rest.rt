// What is left of bytes that are read item by item.
ghost use Rattle.std.specs.Prelude.{◌≡◌, ◌+◌, ◌^◌, ◌<◌, ◌≤◌, length, drop};

// The bytes that are left, and the byte at which they begin.
#[derive(Drop)]
pub struct Rest<'a> {
    pub at: usize,
    pub bytes: &'a [u8],
    ghost fits: { at + length bytes.now < 2 ^ 64 },
}

impl Rest<'_> {
    // Passes an item of n bytes.
    pub fn pass(&mut self, n: usize)
        requires { n ≤ length self.old.bytes.now }
        ensures at { self.new.at ≡ self.old.at + n }
        ensures bytes { self.new.bytes.now ≡ drop n self.old.bytes.now }
    {
        *self = Rest {
            at: self.at + n,
            bytes: &self.bytes[n..],
        };
    }
}
