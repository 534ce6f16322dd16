// Records that come in at a node, one after the other.
ghost use Rattle.std.specs.Prelude.{◌≡◌, ◌+◌, ◌*◌, IfOk, IfNone, IfSome, if◌then◌else◌, vec_len};
ghost use Rattle.std.specs.Io.KnownBytes.{IsAtEnd};
ghost use Rattle.relay_console.specs.Taking.{Takes};

use crate::stream::{fill, record_length};
use console::{Program, Stopped};
use relay_node::{Node, Refusal};
use std::alloc::{AllocError, Global};
use std::io::Read;

#[derive(Drop)]
pub struct Intake {
    pub node: Node,
    // how many records were refused
    pub refused: u64,
    // for the bytes of a record
    room: Vec<u8>,
    ghost long: { vec_len room ≡ (if node.source then 5 + node.slots.width * 1024 else 1031) },
}

impl Intake {
    pub fn new(heap: Global, node: Node) -> Result<Intake, AllocError>
        ensures { IfOk result (λ i. (i.node ≡ node) × (i.refused ≡ 0)) }
    {
        let room = vec![in heap; 0u8; record_length(&node)]?;
        Ok(Intake {
            node,
            refused: 0,
            room,
        })
    }

    // Takes the next record in, and answers how many rounds ended; a refusal is told, and ends none. `None` where the input has ended:
    // what was left of it was less than a record, and is refused if it was anything.
    pub fn take_next<R: Read>(
        &mut self,
        program: Program,
        input: &mut R,
    ) -> Result<Option<u8>, Stopped>
        ensures end { IfOk result (λ o. IfNone o (IsAtEnd (R.remaining input.new))) }
        ensures left { IfOk result (λ o. IfNone o (self.new.node ≡ self.old.node)) }
        ensures takes { IfOk result (λ o. IfSome o (λ n. Takes self.old.node self.new.node (R.remaining input.old) (R.remaining input.new) n)) }
    {
        let count = program.or_stop("standard input", fill(input, &mut self.room))?;
        if count == 0 {
            return Ok(None);
        }
        if count < self.room.len() {
            self.refuse(program, Refusal::Malformed)?;
            return Ok(None);
        }
        match self.node.take_record(&self.room) {
            Ok(rounds) => Ok(Some(rounds)),
            Err(refusal) => {
                self.refuse(program, refusal)?;
                Ok(Some(0))
            }
        }
    }

    // Counts and tells a refusal of the record, with its line and round where it has them.
    fn refuse(&mut self, program: Program, refusal: Refusal) -> Result<(), Stopped>
        ensures { self.new.node ≡ self.old.node }
    {
        self.refused = self.refused.saturating_add(1);
        tell_refused(program, refusal, &self.room)
    }

    // Says at the end of the input what was done.
    pub fn tell_end(&self, program: Program) -> Result<(), Stopped> {
        let name = program.name;
        let rounds = self.node.slots.round;
        let refused = self.refused;
        let kept = kept(&self.node);
        eprintln!(program.rt; "{name}: {rounds} rounds ended, {refused} refused, {kept} kept")?;
        Ok(())
    }
}

fn tell_refused(program: Program, refusal: Refusal, record: &[u8]) -> Result<(), Stopped> {
    let name = program.name;
    let fault = refusal.number();
    match (refusal, record) {
        (Refusal::Malformed, _) => eprintln!(program.rt; "{name}: refused {fault}: {refusal}")?,
        // a message
        (_, [4, r3, r2, r1, r0, ..]) => {
            let round = u32::from_be_bytes([*r3, *r2, *r1, *r0]);
            eprintln!(program.rt; "{name}: refused {fault}: {refusal} (round {round})")?;
        }
        (_, [_, l1, l0, r3, r2, r1, r0, ..]) => {
            let line = u16::from_be_bytes([*l1, *l0]);
            let round = u32::from_be_bytes([*r3, *r2, *r1, *r0]);
            eprintln!(program.rt;
                "{name}: refused {fault}: {refusal} (line {line}, round {round})"
            )?;
        }
        // a record as short as this is malformed
        _ => eprintln!(program.rt; "{name}: refused {fault}: {refusal}")?,
    }
    Ok(())
}

// How many packets, or messages, are kept for rounds that have not ended.
fn kept(node: &Node) -> usize {
    node.slots
        .tags
        .iter()
        .filter(|tag| tag.is_some_and(|round| round >= node.slots.round))
        .count()
}
