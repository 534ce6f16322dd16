// A listener at a place of a net: packets come in on standard input, and the bytes of the messages go to standard output, round by round.
#![tactic(auto)]

use console::{OutOfMemory, Program, Stopped, status};
use relay_console::{Intake, Role, read_node};
use relay_node::Node;
use std::io::{BufReader, BufWriter, Read, Write};
use std::process::ExitCode;
use std::{env, io};

// The messages of the rounds that have just ended.
fn put_out<W: Write>(node: &Node, count: u8, out: &mut W) -> io::Result<()> {
    let first = node.slots.round.saturating_sub(u64::from(count));
    for round in first..node.slots.round {
        // `read` takes the number
        for j in 0..node.current.len() {
            out.write_all(&node.read(round, j))?;
        }
    }
    out.flush()
}

fn work<R: Read, W: Write>(
    program: Program,
    node: Node,
    input: &mut R,
    out: &mut W,
) -> Result<(), Stopped> {
    let intake = Intake::new(program.rt.alloc(), node).map_err(OutOfMemory::from);
    let mut intake = program.or_end(intake)?;
    // a bound, so that the loop is known to end; `box` goes round in the same way, but for what it does with a round, in its midst
    for _ in 0..u64::MAX {
        let Some(rounds) = intake.take_next(program, input)? else {
            break;
        };
        if rounds > 0 {
            let put = put_out(&intake.node, rounds, out);
            program.or_stop("standard output", put)?;
        }
    }
    intake.tell_end(program)
}

fn run(program: Program) -> Result<(), Stopped> {
    let rt = program.rt;
    let mut words = env::args(rt)?.skip(1);
    let (Some(net), Some(plan), Some(place), None) = (
        words.next(),
        words.next(),
        words.next(),
        words.next(),
    ) else {
        eprintln!(rt; "usage: listen NET PLAN PLACE")?;
        return Err(Stopped);
    };
    let node = read_node(
        program,
        net.as_str(),
        plan.as_str(),
        place.as_str(),
        Role::Receiver,
    )?;
    let input = BufReader::new(rt.alloc(), rt.stdin());
    let mut input = program.or_stop("standard input", input)?;
    let out = BufWriter::new(rt.alloc(), rt.stdout());
    let mut out = program.or_stop("standard output", out)?;
    work(program, node, &mut input, &mut out)
}

fn main(rt: HostRuntime) -> ExitCode {
    status(run(Program {
        rt: &rt,
        name: "listen",
    }))
}
