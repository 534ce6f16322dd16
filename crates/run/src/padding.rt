// The last message of a file is filled up with zeros.
ghost use Rattle.std.specs.Prelude.{◌≡◌, ◌-◌, ◌≤◌, ◌++◌, length, take, replicate};

// Keeps the first `count` bytes, and puts zeros behind them.
pub fn fill_up(bytes: &mut [u8], count: usize)
    requires { count ≤ length bytes.old }
    ensures { bytes.new ≡ take count bytes.old ++ replicate (length bytes.old - count) 0 }
{
    bytes[count..].fill(0);
}
