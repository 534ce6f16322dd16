// The receivers when a link is passed.
ghost use Rattle.std.specs.Prelude.{◌≡◌, ℕ, ◌<◌, length, slice_index_or};
ghost use Rattle.coding.specs.Passing.{Ready, Passed};

use crate::receiver::Receiver;
use gf_bytes::Vector;

// Link e with vector v takes its place on the path of each receiver on one of whose paths it lies.
pub fn pass(receivers: &mut [Receiver], e: u16, v: Vector)
    requires { (i : ℕ) (p : Receiver) → i < length receivers.old → Ready e v (slice_index_or receivers.old i p) }
    ensures { (i : ℕ) (p : Receiver) → i < length receivers.old → Passed e v.bytes (slice_index_or receivers.old i p) (slice_index_or receivers.new i p) }
{
    for receiver in receivers {
        receiver.pass(e, v);
    }
}
