// The step that puts a vector in another's place.
ghost use Rattle.std.specs.Prelude.{◌≡◌, ◌<◌, length};
ghost use Rattle.gf.proofs.Fields.{byte_field};
ghost use Rattle.linear.specs.Vectors.{row, dot};
ghost use Rattle.linear.specs.Dual.{renew};
ghost use Rattle.coding_steps.specs.Rows.{bytes_of, AllCounted, SameRows};

use gf_bytes::{Vector, inverse};

// The dual rows when v takes the place of vector j: as many as they have coefficients.
pub fn renew(rows: &mut [Vector], j: usize, v: Vector)
    requires counted { (AllCounted (length rows.old) rows.old) × (v.count ≡ length rows.old) }
    requires place { j < length rows.old }
    requires served { 0 < dot byte_field (length rows.old) (row (bytes_of rows.old) j) v.bytes }
    ensures counted { AllCounted (length rows.old) rows.new }
    ensures renewed { SameRows (length rows.old) (bytes_of rows.new) (renew byte_field (length rows.old) j v.bytes (bytes_of rows.old)) }
{
    let by = inverse(rows[j].dot(v));
    let new = rows[j].scaled(by);
    for (i, row) in rows.iter_mut().enumerate() {
        *row = if i == j {
            new
        } else {
            row.plus(new.scaled(row.dot(v)))
        };
    }
}
