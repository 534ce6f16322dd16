// A node at work: what comes in, and what it sends and reads for the rounds that have just ended.
ghost use Rattle.std.specs.Prelude.{◌≡◌, ◌*◌, ◌<◌, [], length, vec_len, slice_index, slice_index_or};
ghost use Rattle.std.specs.List.{flat_map};
ghost use Rattle.relay_theory.specs.Relay.{receive, at_source};
ghost use Rattle.relay_memory.specs.Memory.{cut};
ghost use Rattle.relay_memory.specs.Values.{parcel, state, over_in, Tells};
ghost use Rattle.relay_node.specs.Steps.{take_packet, take_message};
ghost use Rattle.relay_node.specs.Values.{Alike, goes, scheme, reading};

use crate::node::Node;
use gf_bytes::{PACKET_LENGTH, Packet, add_multiple};
use relay_memory::Refusal;

impl Node {
    // Takes in a packet of a round over a link, and answers how many rounds end. What came in for them stays in memory until the next call.
    pub fn take(&mut self, link: u16, round: u32, packet: &Packet) -> Result<u8, Refusal>
        ensures answer { Tells self.old.slots self.new.slots result (take_packet self.old.source self.old.slots.ins.items (state self.old.slots) link round packet.now) }
        ensures code { Alike self.old self.new }
    {
        if self.source {
            return Err(Refusal::Foreign);
        }
        self.put(link, round, packet)
    }

    // Takes in a message, by its bytes.
    pub fn take_message(&mut self, round: u32, bytes: &[u8]) -> Result<u8, Refusal>
        ensures answer { Tells self.old.slots self.new.slots result (take_message self.old.source self.old.slots.width self.old.slots.ins.items (state self.old.slots) round bytes.now) }
        ensures code { Alike self.old self.new }
    {
        if !self.source || bytes.len() != self.slots.width * PACKET_LENGTH {
            return Err(Refusal::Malformed);
        }
        self.put(0, round, bytes)
    }

    // The packets that came in for a round in memory, in the order of the links.
    fn came(&self, round: u64) -> &[Packet]
        ensures packets { result.now ≡ flat_map (λ m. m) (over_in self.now.slots round).came }
        ensures len { length result.now ≡ vec_len self.now.slots.ins * self.now.slots.width }
    {
        let hand = self.slots.ins.len() * self.slots.width;
        let first = (round % 3) as usize * hand;
        &self.slots.packets[first..first + hand]
    }

    // The packet that goes out over link outs[out] for a round in memory.
    pub fn mix(&self, round: u64, out: usize) -> Packet
        requires { out < vec_len self.now.outs }
        ensures { result ≡ at_source (scheme self.now) (slice_index (goes self.now) out) (over_in self.now.slots round).came }
    {
        gf_bytes::mix(&self.outs[out].coefficients, self.came(round))
    }

    // Packet j of the message that the receiver reads for a round in memory.
    pub fn read(&self, round: u64, j: usize) -> Packet
        requires { j < vec_len self.now.current }
        ensures { result ≡ slice_index_or (reading self.now (flat_map (λ m. m) (over_in self.now.slots round).came)) j [] }
    {
        let came = self.came(round);
        let row = &self.rows[j];
        let mut sum = [0; PACKET_LENGTH];
        // by place: in a loop over `row.iter().zip(..)` the row has no name for the invariant, and the proof didn't close
        for (i, at) in self.current.iter().enumerate() {
            add_multiple(&mut sum, row[i], &came[*at as usize]);
        }
        sum
    }

    // Puts what comes in into the memory.
    fn put(&mut self, link: u16, round: u32, bytes: &[u8]) -> Result<u8, Refusal>
        requires { length bytes.now ≡ self.old.slots.width * 1024 }
        ensures answer { Tells self.old.slots self.new.slots result (receive self.old.slots.ins.items (state self.old.slots) (parcel link round (cut self.old.slots.width bytes.now))) }
        ensures code { Alike self.old self.new }
    {
        self.slots.take(link, round, bytes)
    }
}
