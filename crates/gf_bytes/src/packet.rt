// Packets of bytes: multiples of them, and their sums.
ghost use Rattle.std.specs.Prelude.{◌≡◌, ℕ, ◌<◌, slice_index};
ghost use Rattle.gf_bytes.specs.Packet.{added_at, mix_at};

use crate::byte::mul;

pub const PACKET_LENGTH: usize = 1024;

pub type Packet = [u8; PACKET_LENGTH];

// Adds `factor` times `packet` to `out`, byte by byte.
pub fn add_multiple(out: &mut Packet, factor: u8, packet: &Packet)
    ensures { (k : ℕ) → k < 1024 → slice_index out.new k ≡ added_at out.old factor packet.now k }
{
    // By `out.iter_mut().zip(packet)` what `out` holds after the loop stays unknown to the proof.
    for (i, byte) in packet.iter().enumerate() {
        out[i] ^= mul(factor, *byte);
    }
}

// The sum of the packets, each times its factor: of as many as have a factor.
pub fn mix(factors: &[u8], packets: &[Packet]) -> Packet
    ensures { (k : ℕ) → k < 1024 → slice_index result k ≡ mix_at factors.now packets.now k }
{
    let mut out = [0; PACKET_LENGTH];
    for (factor, packet) in factors.iter().zip(packets) {
        add_multiple(&mut out, *factor, packet);
    }
    out
}
