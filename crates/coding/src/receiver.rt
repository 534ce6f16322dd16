// A receiver on the way.
ghost use Rattle.std.specs.Prelude.{◌≡◌, ℕ, length};
ghost use Rattle.coding_steps.specs.Rows.{AllCounted};

use crate::aim::Aim;
use crate::transposed::transposed;
use crate::unit_rows::unit_rows;
use coding_steps::{Carrier, messages, place, renew};
use gf_bytes::Vector;
use std::alloc::{AllocError, Global};
use wire::Decoder;

#[derive(Drop)]
pub struct Receiver<'a> {
    pub aim: &'a Aim,
    // for each path what now carries its packet
    pub current: Vec<Carrier>,
    // the dual rows of these packets' vectors; apart, since a link that is passed renews all of them as one slice
    pub rows: Vec<Vector>,
    ghost level: { length current.items ≡ length rows.items },
    ghost paths: { length aim.now.paths.items ≡ length rows.items },
    ghost counted: { AllCounted (length rows.items) rows.items },
}

impl<'a> Receiver<'a> {
    ghost use Rattle.std.specs.Prelude.{◌<◌, ◌≤◌, IfOk};
    ghost use Rattle.std.specs.List.{filter_map};
    ghost use Rattle.coding_theory.specs.Coding.{start};
    ghost use Rattle.coding_steps.specs.Carriers.{number_of};
    ghost use Rattle.coding.specs.Aims.{aim_of};
    ghost use Rattle.coding.specs.State.{Stands};
    ghost use Rattle.coding.specs.Passing.{Ready, Passed};
    ghost use Rattle.coding.specs.Decoding.{Leaves};

    // Before the first link the packets of the message themselves belong to the paths.
    pub fn new(heap: Global, h: usize, aim: &'a Aim) -> Result<Receiver<'a>, AllocError>
        requires { (h ≤ 32) × (length aim.now.paths.items ≡ h) }
        ensures { IfOk result (λ p. Stands h p (start h (aim_of aim.now))) }
    {
        let current = messages(heap, h)?;
        let rows = unit_rows(heap, h)?;
        Ok(Receiver { aim, current, rows })
    }

    // Link e with vector v takes its place on the path on which it lies.
    pub fn pass(&mut self, e: u16, v: Vector)
        requires { Ready e v self.old }
        ensures { Passed e v.bytes self.old self.new }
    {
        if let Some(j) = place(&self.aim.paths, e) {
            self.current[j] = Carrier::Link(e);
            renew(&mut self.rows, j, v);
        }
    }

    // The links that carry the packets.
    fn links(&self, heap: Global) -> Result<Vec<u16>, AllocError>
        ensures { IfOk result (λ v. v.items ≡ filter_map number_of self.now.current.items) }
    {
        self.current
            .iter()
            .filter_map(|carrier| carrier.link())
            .collect(heap)
    }

    // What it is left with: the links, and the rows by which the packets on them give the message.
    pub fn decoder(&self, heap: Global) -> Result<Decoder, AllocError>
        ensures { IfOk result (λ d. Leaves self.now d) }
    {
        let links = self.links(heap)?;
        let rows = transposed(heap, &self.rows)?;
        Ok(Decoder { links, rows })
    }
}
