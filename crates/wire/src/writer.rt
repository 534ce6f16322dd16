// Writing a plan.
ghost use Rattle.std.specs.Prelude.{◌≡◌, ℕ, ◌+◌, ◌<◌, ◌≤◌, [], ◌++◌, map, length, IfOk, vec_items, OnOk};
ghost use Rattle.std.specs.List.{flat_map, AllByRecursion};
ghost use Rattle.network.specs.Values.{value};
ghost use Rattle.wire.specs.Plan.{served, unserved};
ghost use Rattle.wire.specs.Format.{got, link_bytes, reader_bytes, flag_byte, side_bytes, plan_bytes, read_plan};
ghost use Rattle.wire.specs.Values.{reader, plan as planned};

use crate::fitted::Fitted;
use crate::plan::{Coded, Decoder, Plan};
use octets::{put_word, put_words};
use std::alloc::{AllocError, Global};
use std::array;

// The bytes of a plan, from which it is read back for its net.
pub fn write(heap: Global, fitted: &Fitted) -> Result<Vec<u8>, AllocError>
    ensures bytes { IfOk result (λ v. v.items ≡ plan_bytes (planned fitted.now.plan.now)) }
    ensures back { IfOk result (λ v. (at : ℕ) × (read_plan (value fitted.now.net.now) v.items ≡ got (planned fitted.now.plan.now) at [])) }
{
    match fitted.plan {
        Plan::Served(coded) => write_served(heap, coded),
        Plan::Unserved { receiver, side } => write_cut(heap, *receiver, side),
    }
}

fn write_served(heap: Global, coded: &Coded) -> Result<Vec<u8>, AllocError>
    requires { AllByRecursion (λ row. length row < 65536) (map vec_items coded.now.coefficients.items) }
    ensures { IfOk result (λ v. v.items ≡ plan_bytes (served (map vec_items coded.now.coefficients.items) (map reader coded.now.receivers.items))) }
{
    let mut out = Vec::new(heap);
    out.push(2)?;
    out.push(1)?;
    put_coefficients(&mut out, &coded.coefficients)?;
    put_decoders(&mut out, &coded.receivers)?;
    Ok(out)
}

fn write_cut(heap: Global, receiver: u16, side: &[bool; 256]) -> Result<Vec<u8>, AllocError>
    ensures { IfOk result (λ v. v.items ≡ plan_bytes (unserved receiver side.now)) }
{
    let mut out = Vec::new(heap);
    out.push(2)?;
    out.push(2)?;
    put_word(&mut out, receiver)?;
    put_side(&mut out, side)?;
    Ok(out)
}

// For each link how many coefficients it has, and the coefficients.
fn put_coefficients(out: &mut Vec<u8>, rows: &[Vec<u8>]) -> Result<(), AllocError>
    requires { AllByRecursion (λ row. length row < 65536) (map vec_items rows.now) }
    ensures { OnOk result (out.new.items ≡ out.old.items ++ flat_map link_bytes (map vec_items rows.now)) }
{
    for row in rows {
        put_word(out, row.len() as u16)?;
        out.extend_from_slice(row)?;
    }
    Ok(())
}

fn put_rows(out: &mut Vec<u8>, rows: &[Vec<u8>]) -> Result<(), AllocError>
    ensures { OnOk result (out.new.items ≡ out.old.items ++ flat_map (λ row. row) (map vec_items rows.now)) }
{
    for row in rows {
        out.extend_from_slice(row)?;
    }
    Ok(())
}

// For each receiver the links from which it reads, and its rows.
fn put_decoders(out: &mut Vec<u8>, decoders: &[Decoder]) -> Result<(), AllocError>
    ensures { OnOk result (out.new.items ≡ out.old.items ++ flat_map reader_bytes (map reader decoders.now)) }
{
    for decoder in decoders {
        put_words(out, &decoder.links)?;
        put_rows(out, &decoder.rows)?;
    }
    Ok(())
}

// The flags of the eight nodes from `first` on, the first the lowest bit. A fold would hide which bit is whose.
fn flag_byte(side: &[bool; 256], first: usize) -> u8
    requires { first + 8 ≤ 256 }
    ensures { result ≡ flag_byte side.now first }
{
    u8::from(side[first])
        + 2 * u8::from(side[first + 1])
        + 4 * u8::from(side[first + 2])
        + 8 * u8::from(side[first + 3])
        + 16 * u8::from(side[first + 4])
        + 32 * u8::from(side[first + 5])
        + 64 * u8::from(side[first + 6])
        + 128 * u8::from(side[first + 7])
}

// The last byte has the flags of the first eight nodes.
fn put_side(out: &mut Vec<u8>, side: &[bool; 256]) -> Result<(), AllocError>
    ensures { OnOk result (out.new.items ≡ out.old.items ++ side_bytes side.now) }
{
    out.extend_from_slice(&array::from_fn::<u8, 32, _>(|i| flag_byte(side, 8 * (31 - i))))
}
