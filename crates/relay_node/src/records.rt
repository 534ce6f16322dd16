// Packets and messages in records of bytes, as nodes take and send them.
ghost use Rattle.std.specs.Prelude.{◌≡◌, ◌+◌, ◌^◌, ◌<◌, ◌≤◌, length, vec_len, slice_index};
ghost use Rattle.relay_theory.specs.Relay.{at_source};
ghost use Rattle.relay_node.specs.Records.{long_at, packet_record, take_record};
ghost use Rattle.relay_memory.specs.Values.{state, over_in, Tells};
ghost use Rattle.relay_node.specs.Values.{Alike, goes, scheme};

use crate::node::Node;
use gf_bytes::Packet;
use octets::word;
use relay_memory::Refusal;

// the kinds of records, their first byte
const PACKET: u8 = 3;

const MESSAGE: u8 = 4;

pub const PACKET_RECORD_LENGTH: usize = 1031;

impl Node {
    // Takes in a packet, or at the source a message, out of its record. What came in for the rounds that ended stays in memory until the next call.
    pub fn take_record(&mut self, bytes: &[u8]) -> Result<u8, Refusal>
        ensures answer { Tells self.old.slots self.new.slots result (take_record self.old.source self.old.slots.width self.old.slots.ins.items (state self.old.slots) bytes.now) }
        ensures code { Alike self.old self.new }
    {
        if bytes.len() == PACKET_RECORD_LENGTH && bytes[0] == PACKET {
            let link = word(bytes[1], bytes[2]);
            let round = long_at(bytes, 3);
            let (packets, _) = bytes[7..].as_chunks();
            return self.take(link, round, &packets[0]);
        }
        if bytes.len() > 4 && bytes[0] == MESSAGE {
            let round = long_at(bytes, 1);
            return self.take_message(round, &bytes[5..]);
        }
        Err(Refusal::Malformed)
    }

    // Writes the record of the packet that goes out over link outs[out] for a round in memory.
    pub fn write_packet(&self, round: u64, out: usize, bytes: &mut [u8; PACKET_RECORD_LENGTH])
        requires out { out < vec_len self.now.outs }
        requires round { round < 2 ^ 32 }
        ensures { bytes.new ≡ packet_record (slice_index (goes self.now) out) round (at_source (scheme self.now) (slice_index (goes self.now) out) (over_in self.now.slots round).came) }
    {
        let packet = self.mix(round, out);
        write_record(bytes, self.outs[out].link, round as u32, &packet);
    }
}

// The number in the four bytes from `at` on.
fn long_at(bytes: &[u8], at: usize) -> u32
    requires { at + 4 ≤ length bytes.now }
    ensures { result ≡ long_at bytes.now at }
{
    u32::from_be_bytes([bytes[at], bytes[at + 1], bytes[at + 2], bytes[at + 3]])
}

// Writes the record of a packet.
pub fn write_record(bytes: &mut [u8; PACKET_RECORD_LENGTH], link: u16, round: u32, packet: &Packet)
    ensures { bytes.new ≡ packet_record link round packet.now }
{
    bytes[0] = PACKET;
    bytes[1..3].copy_from_slice(&link.to_be_bytes());
    bytes[3..7].copy_from_slice(&round.to_be_bytes());
    bytes[7..].copy_from_slice(packet);
}
