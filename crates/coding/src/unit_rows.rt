// The rows before the first link.
ghost use Rattle.std.specs.Prelude.{◌≡◌, ◌≤◌, length, IfOk};
ghost use Rattle.linear.specs.Vectors.{units};
ghost use Rattle.coding_steps.specs.Rows.{bytes_of, AllCounted, SameRows};

use gf_bytes::Vector;
use std::alloc::{AllocError, Global};

// The unit vectors are their own dual rows.
pub fn unit_rows(heap: Global, h: usize) -> Result<Vec<Vector>, AllocError>
    requires { h ≤ 32 }
    ensures long { IfOk result (λ v. length v.items ≡ h) }
    ensures counted { IfOk result (λ v. AllCounted h v.items) }
    ensures units { IfOk result (λ v. SameRows h (bytes_of v.items) (units h)) }
{
    (0..h).map(|i| Vector::unit(h, i).unwrap()).collect(heap)
}
