// Rows and columns exchanged.
ghost use Rattle.std.specs.Prelude.{◌≡◌, map, length, IfOk, vec_items, slice_index};
ghost use Rattle.linear.specs.Vectors.{row};
ghost use Rattle.linear.specs.Reading.{transpose};
ghost use Rattle.coding_steps.specs.Rows.{bytes_of};

use gf_bytes::Vector;
use std::alloc::{AllocError, Global};

// The coefficient at k of each row.
fn column(heap: Global, rows: &[Vector], k: usize) -> Result<Vec<u8>, AllocError>
    ensures { IfOk result (λ v. v.items ≡ map (λ row. slice_index row.bytes k) rows.now) }
{
    rows.iter().map(|row| row.at(k)).collect(heap)
}

// The rows' columns, as many as there are rows.
pub fn transposed(heap: Global, rows: &[Vector]) -> Result<Vec<Vec<u8>>, AllocError>
    ensures { IfOk result (λ v. map vec_items v.items ≡ transpose (length rows.now) (row (bytes_of rows.now))) }
{
    (0..rows.len())
        .map(|k| column(heap, rows, k))
        .try_collect(heap)
}
