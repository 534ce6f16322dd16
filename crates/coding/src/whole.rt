// Coefficients for all links, and what each receiver is left with.
ghost use Rattle.std.specs.Prelude.{IfOk};
ghost use Rattle.gf.proofs.Fields.{byte_field};
ghost use Rattle.network.specs.Values.{graph};
ghost use Rattle.coding_theory.specs.Coding.{code};
ghost use Rattle.coding.specs.Aims.{aims_of};
ghost use Rattle.coding.specs.Served.{Served};
ghost use Rattle.coding.specs.Meaning.{Away, Means};

use crate::aim::Aim;
use crate::coder::Coder;
use network::Network;
use std::alloc::{AllocError, Global};
use wire::Coded;

// For a network, a rate and the receivers with their paths: exactly what the definition has.
pub fn code(heap: Global, network: &Network, rate: u8, aims: &[Aim]) -> Result<Coded, AllocError>
    requires served { Served (graph network.now) rate (aims_of aims.now) }
    requires away { Away (aims_of aims.now) }
    ensures { IfOk result (λ x. Means rate x (code byte_field (graph network.now) rate (aims_of aims.now))) }
{
    let mut coder = Coder::new(heap, network, rate as usize, aims)?;
    let mut coefficients = Vec::with_capacity(heap, network.links.len())?;
    for _ in 0..network.links.len() {
        coefficients.push(coder.advance(heap)?)?;
    }
    let receivers = coder.decoders(heap)?;
    Ok(Coded {
        coefficients,
        receivers,
    })
}
