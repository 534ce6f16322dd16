// Messages are played one after the other. The packets of a message arrive in the order of the links, so that a node has all that comes in
// before it sends, and memory holds no packets but those that nodes keep.
ghost use Rattle.std.specs.Prelude.{◌≡◌, ◌+◌, ◌^◌, ◌<◌, length, vec_len};
ghost use Rattle.network.specs.Values.{value};
ghost use Rattle.run.specs.Playing.{AllOut, Opens, Crosses, Closes, PlaysOn};

use crate::parts::{count, packet_over};
use crate::player::Player;

impl Player<'_> {
    // The source takes in a message.
    fn open(&mut self, bytes: &[u8])
        requires { self.old.round < 2 ^ 32 }
        ensures opens { Opens self.old self.new bytes.now }
        ensures same { (self.new.net ≡ self.old.net) × (self.new.round ≡ self.old.round) }
    {
        // messages come in order: it is taken
        let _ = self.nodes[0].take_message(self.round as u32, bytes);
    }

    // The packet of link k goes from its beginning to its end.
    fn cross(&mut self, k: usize)
        requires link { k < vec_len self.old.net.now.network.links }
        requires early { self.old.round < 2 ^ 32 }
        ensures crosses { Crosses (value self.old.net.now) k (k + 1) self.old self.new }
        ensures same { (self.new.net ≡ self.old.net) × (self.new.round ≡ self.old.round) }
    {
        let link = &self.net.network.links[k];
        let packet = packet_over(&self.nodes[link.from as usize], k as u16, self.round);
        count(&mut self.counts, k, &packet);
        // the only one of its link and round, and of the round at work: it is taken
        let _ = self.nodes[link.to as usize].take(k as u16, self.round as u32, &packet);
    }

    // The packets of all links go over them, in order.
    fn cross_all(&mut self)
        requires { self.old.round < 2 ^ 32 }
        ensures crosses { Crosses (value self.old.net.now) 0 (length (value self.old.net.now).network.links) self.old self.new }
        ensures same { (self.new.net ≡ self.old.net) × (self.new.round ≡ self.old.round) }
    {
        // by number, which is what a packet is called by
        for k in 0..self.net.network.links.len() {
            self.cross(k);
        }
    }

    // The round is over.
    fn close(&mut self)
        requires { self.old.round < 2 ^ 32 }
        ensures closes { Closes self.old self.new }
        ensures same { (self.new.net ≡ self.old.net) × (self.new.round ≡ self.old.round + 1) }
    {
        self.round += 1;
    }

    // Plays a message, given by its bytes. There are no rounds beyond 2^32 of them.
    pub fn play(&mut self, bytes: &[u8])
        requires { self.old.round < 2 ^ 32 }
        ensures plays { PlaysOn (value self.old.net.now) self.old self.new bytes.now }
        ensures delivers { AllOut (value self.old.net.now) self.new }
        ensures same { (self.new.net ≡ self.old.net) × (self.new.round ≡ self.old.round + 1) }
    {
        self.open(bytes);
        self.cross_all();
        self.close();
    }
}
