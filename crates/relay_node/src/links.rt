// Lists of links and of nodes.
ghost use Rattle.std.specs.Prelude.{◌≡◌, ◌≤◌, Bool, length, IfOk};
ghost use Rattle.std.specs.Fn.{FnReturnsAt};
ghost use Rattle.relay_node.specs.Assembly.{passing, current};

use relay_memory::position;
use std::alloc::{AllocError, Global};

// The places of the elements that pass a test.
pub(crate) fn which<T, F: Fn(&T) -> bool>(
    heap: Global,
    all: &[T],
    test: F,
) -> Result<Vec<u16>, AllocError>
    requires can { F.IsAlwaysCallable test }
    requires few { length all.now ≤ 1024 }
    ensures { (p : T → Bool) → ((l : T) (b : Bool) → FnReturnsAt F.Fn test l b → b ≡ p l) → IfOk result (λ v. v.items ≡ passing p 0 all.now) }
{
    let mut found = Vec::new(heap);
    for (i, x) in all.iter().enumerate() {
        if test(x) {
            found.push(i as u16)?;
        }
    }
    Ok(found)
}

// Where each of some links stands among those that come in; behind them all if it isn't there, as in the
// definition: a plan that fits its net has no such link, and the node's invariant says so.
pub(crate) fn positions(heap: Global, ins: &[u16], links: &[u16]) -> Result<Vec<u16>, AllocError>
    requires { length ins.now ≤ 1024 }
    ensures { IfOk result (λ v. v.items ≡ current ins.now links.now) }
{
    links
        .iter()
        .map(|link| position(ins, *link).unwrap_or(ins.len()) as u16)
        .collect(heap)
}
