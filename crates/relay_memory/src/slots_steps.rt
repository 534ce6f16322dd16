// What comes in is kept, and rounds end.
ghost use Rattle.std.specs.Prelude.{◌≡◌, ◌+◌, ◌*◌, ◌<◌, ◌≤◌, true, length, Some, None, IfOk, vec_len, ◌≢◌, slice_index, slice_index_or};
ghost use Rattle.network.specs.Network.{Rising};
ghost use Rattle.relay_theory.specs.Relay.{fresh, is_over, next, keep, ends, receive};
ghost use Rattle.relay_memory.specs.Memory.{cut, slot};
ghost use Rattle.relay_memory.specs.Values.{parcel, state, ended_in, Tells};

use crate::links::position;
use crate::refusal::Refusal;
use crate::slots::Slots;
use gf_bytes::PACKET_LENGTH;
use std::alloc::{AllocError, Global};

impl Slots {
    // Nothing has come in. All memory is asked for here.
    pub fn new(heap: Global, ins: Vec<u16>, width: usize) -> Result<Slots, AllocError>
        requires rising { Rising (vec_len ins) (λ i. slice_index ins.items i) }
        requires few { vec_len ins ≤ 1024 }
        requires narrow { width ≤ 32 }
        ensures { IfOk result (λ s. (state s ≡ fresh) × (s.ins ≡ ins) × (s.width ≡ width)) }
    {
        let count = 3 * ins.len();
        let tags = vec![in heap; None; count]?;
        let packets = vec![in heap; [0u8; PACKET_LENGTH]; count * width]?;
        Ok(Slots {
            ins,
            width,
            round: 0,
            tags,
            packets,
        })
    }

    // Whether a packet of the round at work has come in over every link.
    fn is_over(&self) -> bool
        ensures { result ≡ is_over self.now.ins.items (state self.now) }
    {
        let links = self.ins.len();
        let first = (self.round % 3) as usize * links;
        links > 0
            && self.tags[first..first + links]
                .iter()
                .all(|tag| *tag == Some(self.round))
    }

    // Ends the round at work. Its packets stay where they are until one that is three rounds later comes in.
    fn next(&mut self)
        requires { is_over self.old.ins.items (state self.old) ≡ true }
        ensures state { state self.new ≡ next (state self.old) }
        ensures kept { (self.new.ins ≡ self.old.ins) × (self.new.width ≡ self.old.width) × (self.new.packets ≡ self.old.packets) × (self.new.round ≡ self.old.round + 1) }
    {
        self.round += 1;
    }

    // Ends rounds one after the other while they are over, three at most, and counts them.
    fn end_rounds(&mut self) -> u8
        ensures ends { ends 3 self.old.ins.items (state self.old) ≡ ended_in self.new self.old.round result }
        ensures count { (result ≤ 3) × (self.new.round ≡ self.old.round + result) }
        ensures same { (self.new.ins ≡ self.old.ins) × (self.new.width ≡ self.old.width) }
    {
        for count in 0..3 {
            if !self.is_over() {
                return count;
            }
            self.next();
        }
        3
    }

    // Puts what comes in over link ins[i] into its slot, which has nothing of its round.
    fn keep(&mut self, i: usize, round: u32, bytes: &[u8])
        requires link { i < vec_len self.old.ins }
        requires window { (self.old.round ≤ round) × (round ≤ self.old.round + 2) }
        requires free { slice_index_or self.old.tags.items (slot (vec_len self.old.ins) round i) None ≢ Some round }
        requires long { length bytes.now ≡ self.old.width * 1024 }
        ensures state { state self.new ≡ keep (parcel (slice_index self.old.ins.items i) round (cut self.old.width bytes.now)) (state self.old) }
        ensures same { (self.new.ins ≡ self.old.ins) × (self.new.width ≡ self.old.width) × (self.new.round ≡ self.old.round) }
    {
        let slot = (round % 3) as usize * self.ins.len() + i;
        let first = slot * self.width;
        let (packets, _) = bytes.as_chunks::<PACKET_LENGTH>();
        self.tags[slot] = Some(u64::from(round));
        self.packets[first..first + self.width].copy_from_slice(packets);
    }

    // Takes in packets of a round that come over a link at once, by their bytes, and answers how many rounds end. Where they are refused,
    // nothing changes.
    pub fn take(&mut self, link: u16, round: u32, bytes: &[u8]) -> Result<u8, Refusal>
        requires { length bytes.now ≡ self.old.width * 1024 }
        ensures answer { Tells self.old self.new result (receive self.old.ins.items (state self.old) (parcel link round (cut self.old.width bytes.now))) }
        ensures same { (self.new.ins ≡ self.old.ins) × (self.new.width ≡ self.old.width) }
    {
        let Some(i) = position(&self.ins, link) else {
            return Err(Refusal::Foreign);
        };
        let number = u64::from(round);
        if number < self.round {
            return Err(Refusal::Late);
        }
        if number > self.round + 2 {
            return Err(Refusal::Early);
        }
        let slot = (round % 3) as usize * self.ins.len() + i;
        if self.tags[slot] == Some(number) {
            return Err(Refusal::Late);
        }
        self.keep(i, round, bytes);
        Ok(self.end_rounds())
    }
}
