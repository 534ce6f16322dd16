// The node at a place of a net, by the net's plan.
ghost use Rattle.std.specs.Prelude.{◌≡◌, ℕ, ◌<◌, ◌≤◌, map, length, IfOk, vec_items, vec_len, slice_index};
ghost use Rattle.network.specs.Network.{Rising};
ghost use Rattle.network.specs.Values.{value};
ghost use Rattle.wire.specs.Plan.{served, Fits};
ghost use Rattle.wire.specs.Values.{reader, plan as plan_of};
ghost use Rattle.relay_theory.specs.Relay.{fresh};
ghost use Rattle.run_theory.specs.Run.{ins as ins_of};
ghost use Rattle.delivery_theory.specs.Work.{reader_for};
ghost use Rattle.relay_node.specs.Assembly.{picked, current as current_of};
ghost use Rattle.relay_node.specs.Nodes.{width as width_of, entries, Works, refusal, receiver_refusal, Begun};
ghost use Rattle.relay_memory.specs.Values.{state};

use crate::links::{positions, which};
use crate::node::{Node, Out};
use crate::node_error::NodeError;
use network::Multicast;
use relay_memory::{Slots, position};
use std::alloc::{AllocError, Global};
use wire::{Coded, Decoder, Fitted, Plan};

impl Node {
    // The relay at a place, which is a receiver too if one is there; at place 0 the source.
    pub fn new(heap: Global, fitted: &Fitted, place: u16) -> Result<Node, NodeError>
        ensures { Begun (value fitted.now.net.now) (plan_of fitted.now.plan.now) place (refusal (value fitted.now.net.now) (plan_of fitted.now.plan.now) place) result }
    {
        if place >= fitted.net.network.nodes {
            return Err(NodeError::Missing);
        }
        match fitted.plan {
            Plan::Served(code) => Ok(assemble(heap, fitted.net, code, place)?),
            Plan::Unserved { .. } => Err(NodeError::Unfit),
        }
    }

    // The receiver at a place, which is a relay too if links leave it.
    pub fn receiver(heap: Global, fitted: &Fitted, place: u16) -> Result<Node, NodeError>
        ensures { Begun (value fitted.now.net.now) (plan_of fitted.now.plan.now) place (receiver_refusal (value fitted.now.net.now) (plan_of fitted.now.plan.now) place) result }
    {
        let net = fitted.net;
        if place < net.network.nodes && !net.receivers.contains(&place) {
            return Err(NodeError::Unfit);
        }
        Node::new(heap, fitted, place)
    }
}

// The parts of a node, put together.
fn assemble(heap: Global, net: &Multicast, code: &Coded, place: u16) -> Result<Node, AllocError>
    requires { Fits (value net.now) (served (map vec_items code.now.coefficients.items) (map reader code.now.receivers.items)) }
    ensures { IfOk result (λ d. Works (value net.now) (map vec_items code.now.coefficients.items) (map reader code.now.receivers.items) place d × (state d.slots ≡ fresh)) }
{
    let ins = which(heap, &net.network.links, |link| link.to == place)?;
    let links = which(heap, &net.network.links, |link| link.from == place)?;
    let outs = goes(heap, &code.coefficients, &links)?;
    let (current, rows) = decoder(heap, &net.receivers, &code.receivers, place, &ins)?;
    let slots = memory(heap, net, ins, place)?;
    Ok(Node {
        source: place == 0,
        slots,
        outs,
        current,
        rows,
    })
}

// The memory of the node at a place into which the links `ins` come.
fn memory(heap: Global, net: &Multicast, ins: Vec<u16>, place: u16) -> Result<Slots, AllocError>
    requires { ins.items ≡ ins_of (value net.now).network place }
    ensures { IfOk result (λ s. (state s ≡ fresh) × (s.ins.items ≡ entries (value net.now) place) × (s.width ≡ width_of (value net.now) place)) }
{
    if place == 0 {
        let origin = vec![in heap; 0u16]?;
        return Slots::new(heap, origin, net.rate as usize);
    }
    Slots::new(heap, ins, 1)
}

// The links that go out, with their coefficients: those of all links are given.
fn goes(heap: Global, coefficients: &[Vec<u8>], links: &[u16]) -> Result<Vec<Out>, AllocError>
    requires { (i : ℕ) → i < length links.now → slice_index links.now i < length coefficients.now }
    ensures links { IfOk result (λ v. map (λ o. o.link) v.items ≡ links.now) }
    ensures coefficients { IfOk result (λ v. map (λ o. vec_items o.coefficients) v.items ≡ picked (map vec_items coefficients.now) links.now) }
{
    let mut outs = Vec::with_capacity(heap, links.len())?;
    for link in links {
        let coefficients = coefficients[*link as usize].clone()?;
        outs.push(Out {
            link: *link,
            coefficients,
        })?;
    }
    Ok(outs)
}

// What the receiver at a place reads by: where its links stand among those that come in, and its rows. Both are empty where there is none.
fn decoder(
    heap: Global,
    receivers: &[u16],
    decoders: &[Decoder],
    place: u16,
    ins: &[u16],
) -> Result<(Vec<u16>, Vec<Vec<u8>>), AllocError>
    requires level { length receivers.now ≡ length decoders.now }
    requires few { length ins.now ≤ 1024 }
    ensures current { IfOk result (λ v. v.0.items ≡ current_of ins.now (reader_for place receivers.now (map reader decoders.now)).links) }
    ensures rows { IfOk result (λ v. map vec_items v.1.items ≡ (reader_for place receivers.now (map reader decoders.now)).rows) }
{
    let Some(i) = position(receivers, place) else {
        return Ok((Vec::new(heap), Vec::new(heap)));
    };
    let current = positions(heap, ins, &decoders[i].links)?;
    let rows = decoders[i].rows.clone()?;
    Ok((current, rows))
}
