// Records on an input.
ghost use Rattle.std.specs.Prelude.{◌+◌, ◌*◌, ◌<◌, ◌≤◌, ◌≡◌, length, take, IfOk, if◌then◌else◌};
ghost use Rattle.std.specs.Io.KnownBytes.{Consumes, IsAtEnd};

use gf_bytes::PACKET_LENGTH;
use relay_node::{Node, PACKET_RECORD_LENGTH};
use std::io;
use std::io::Read;

// How long the records are that come in at a node.
pub fn record_length(node: &Node) -> usize
    ensures { result ≡ (if node.now.source then 5 + node.now.slots.width * 1024 else 1031) }
{
    if node.source {
        return 5 + node.slots.width * PACKET_LENGTH;
    }
    PACKET_RECORD_LENGTH
}

// Reads until the record is full or the input ends: how many bytes there are. They are those that the input has next.
pub fn fill<R: Read>(input: &mut R, bytes: &mut [u8]) -> io::Result<usize>
    ensures count { IfOk result (λ n. n ≤ length bytes.old) }
    ensures next { IfOk result (λ n. Consumes (R.remaining input.old) (R.remaining input.new) (take n bytes.new)) }
    ensures end { IfOk result (λ n. n < length bytes.old → IsAtEnd (R.remaining input.new)) }
{
    let mut at = 0;
    while at < bytes.len() {
        let n = input.read(&mut bytes[at..])?;
        if n == 0 {
            break;
        }
        at += n;
    }
    Ok(at)
}
