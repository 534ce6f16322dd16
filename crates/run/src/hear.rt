// Whether receivers have what was played.
ghost use Rattle.std.specs.Prelude.{◌≡◌, ◌*◌, ◌<◌, length, vec_len};
ghost use Rattle.network.specs.Values.{value};
ghost use Rattle.run.specs.Hearing.{Hears, HasAll};

use crate::player::Player;
use gf_bytes::PACKET_LENGTH;

impl Player<'_> {
    // Whether what receiver i of the net has read for the last message is that message, given by its bytes.
    pub fn has(&self, i: usize, bytes: &[u8]) -> bool
        requires receiver { i < vec_len self.now.net.now.receivers }
        requires played { 0 < self.now.round }
        requires long { length bytes.now ≡ self.now.net.now.rate * 1024 }
        ensures hears { Hears (value self.now.net.now) self.now i bytes.now result }
        ensures all { HasAll (value self.now.net.now) self.now bytes.now result }
    {
        let node = &self.nodes[self.net.receivers[i] as usize];
        if node.current.len() != self.net.rate as usize {
            return false;
        }
        let (packets, _) = bytes.as_chunks::<PACKET_LENGTH>();
        // a loop: by `all` over these pairs the proof of what is heard didn't close
        for (j, packet) in packets.iter().enumerate() {
            if node.read(self.round - 1, j) != *packet {
                return false;
            }
        }
        true
    }
}
