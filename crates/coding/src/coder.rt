// Coefficients, current links and rows of a whole network.
ghost use Rattle.std.specs.Prelude.{◌≡◌, length};
ghost use Rattle.network.specs.Values.{graph};
ghost use Rattle.coding.specs.Aims.{aims_on};
ghost use Rattle.coding.specs.Served.{Served, Served-prop};
ghost use Rattle.coding.specs.State.{State};

use crate::aim::Aim;
use crate::pass::pass;
use crate::receiver::Receiver;
use coding_steps::{Choice, at_hand, place};
use gf_bytes::Vector;
use network::Network;
use std::alloc::{AllocError, Global};
use wire::{Coded, Decoder};

// A network, with the vectors of the links so far, of h coefficients each, and the receivers after them.
#[derive(Drop)]
pub struct Coder<'a> {
    pub network: &'a Network,
    pub h: usize,
    pub vectors: Vec<Vector>,
    pub receivers: Vec<Receiver<'a>>,
    ghost served: { Served (graph network.now) h (aims_on receivers.items) } by { Served-prop (graph network.now) h (aims_on receivers.items) },
    ghost state: { State (graph network.now) h (aims_on receivers.items) (length vectors.items) vectors.items receivers.items },
}

impl<'a> Coder<'a> {
    ghost use Rattle.std.specs.Prelude.{ℕ, ◌+◌, ◌<◌, IfOk, slice_index_or};
    ghost use Rattle.coding.specs.Aims.{aims_of};
    ghost use Rattle.coding.specs.State.{chosen_at, Carries};
    ghost use Rattle.coding.specs.Decoding.{Leaves};

    // Before the first link.
    pub fn new(
        heap: Global,
        network: &'a Network,
        h: usize,
        aims: &'a [Aim],
    ) -> Result<Coder<'a>, AllocError>
        requires { Served (graph network.now) h (aims_of aims.now) }
        ensures given { IfOk result (λ c. (graph c.network.now ≡ graph network.now) × (c.h ≡ h) × (aims_on c.receivers.items ≡ aims_of aims.now)) }
        ensures first { IfOk result (λ c. length c.vectors.items ≡ 0) }
    {
        let mut receivers = Vec::with_capacity(heap, aims.len())?;
        for aim in aims {
            receivers.push(Receiver::new(heap, h, aim)?)?;
        }
        Ok(Coder {
            network,
            h,
            vectors: Vec::new(heap),
            receivers,
        })
    }

    // The coefficients of the next link, and its vector.
    fn choose(&self, heap: Global) -> Result<(Vec<u8>, Vector), AllocError>
        requires { length self.now.vectors.items < length (graph self.now.network.now).links }
        ensures { IfOk result (λ p. (p.0.items ≡ chosen_at (graph self.now.network.now) self.now.h (aims_on self.now.receivers.items) (length self.now.vectors.items))
            × Carries (graph self.now.network.now) self.now.h (aims_on self.now.receivers.items) (length self.now.vectors.items) p.1) }
    {
        let e = self.vectors.len();
        let node = self.network.links[e].from;
        let hands = at_hand(heap, self.h, node, &self.network.links[..e])?;
        let mut choice = Choice::new(heap, self.h, hands)?;
        for receiver in &self.receivers {
            if let Some(j) = place(&receiver.aim.paths, e as u16) {
                let packet = receiver.current[j];
                let added = packet.vector(self.h, &self.vectors);
                choice.serve(heap, receiver.rows[j], packet, added)?;
            }
        }
        Ok((choice.coefficients, choice.vector))
    }

    // Chooses the coefficients of the next link, and passes it.
    pub fn advance(&mut self, heap: Global) -> Result<Vec<u8>, AllocError>
        requires { length self.old.vectors.items < length (graph self.old.network.now).links }
        ensures given { (graph self.new.network.now ≡ graph self.old.network.now) × (self.new.h ≡ self.old.h) × (aims_on self.new.receivers.items ≡ aims_on self.old.receivers.items) }
        ensures next { IfOk result (λ cs. length self.new.vectors.items ≡ length self.old.vectors.items + 1) }
        ensures chosen { IfOk result (λ cs. cs.items ≡ chosen_at (graph self.old.network.now) self.old.h (aims_on self.old.receivers.items) (length self.old.vectors.items)) }
    {
        let e = self.vectors.len() as u16;
        let (coefficients, vector) = self.choose(heap)?;
        self.vectors.push(vector)?;
        pass(&mut self.receivers, e, vector);
        Ok(coefficients)
    }

    // What the receivers are left with.
    pub fn decoders(&self, heap: Global) -> Result<Vec<Decoder>, AllocError>
        ensures long { IfOk result (λ v. length v.items ≡ length self.now.receivers.items) }
        ensures leaves { IfOk result (λ v. (i : ℕ) (p : Receiver) (d : Decoder) → i < length self.now.receivers.items → Leaves (slice_index_or self.now.receivers.items i p) (slice_index_or v.items i d)) }
    {
        let mut decoders = Vec::with_capacity(heap, self.receivers.len())?;
        for receiver in &self.receivers {
            decoders.push(receiver.decoder(heap)?)?;
        }
        Ok(decoders)
    }
}
