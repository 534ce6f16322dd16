// A box at a place of a net: packets, or at the source messages, come in on standard input, and the packets that it sends go to standard output,
// or each line's to a file or pipe of its own.
#![tactic(auto)]

use console::{OutOfMemory, Program, Stopped, status};
use relay_console::{Intake, Role, read_node};
use relay_node::{Node, PACKET_RECORD_LENGTH};
use std::fs::File;
use std::io::{BufReader, BufWriter, Read, Stdout, Write};
use std::process::ExitCode;
use std::{env, io};

// Where packets go: all to one output, or those over link outs[k] to files[k]: the links are the node's, and the files are not.
#[derive(Drop)]
enum Outlet {
    Together(BufWriter<Stdout>),
    Apart(Vec<File>),
}

impl Outlet {
    fn put(&mut self, k: usize, packet: &[u8; PACKET_RECORD_LENGTH]) -> io::Result<()> {
        match self {
            Outlet::Together(out) => out.write_all(packet),
            Outlet::Apart(files) => match files.get_mut(k) {
                Some(file) => file.write_all(packet),
                None => Ok(()),
            },
        }
    }

    fn flush(&mut self) -> io::Result<()> {
        match self {
            Outlet::Together(out) => out.flush(),
            Outlet::Apart(_) => Ok(()),
        }
    }
}

// Each line's file, in the order of the lines out of the node.
fn open_lines(rt: &HostRuntime, node: &Node, folder: &str) -> io::Result<Vec<File>> {
    let mut files = Vec::new(rt.alloc());
    for out in &node.outs {
        let link = out.link;
        let path = format!(in rt.alloc(); "{folder}/{link}")?;
        let file = File::create(rt, path.as_str())?;
        files.push(file)?;
    }
    Ok(files)
}

// The packets of the rounds that have just ended, by round and then by line.
fn send(node: &Node, count: u8, outlet: &mut Outlet) -> io::Result<()> {
    let first = node.slots.round.saturating_sub(u64::from(count));
    let mut packet = [0u8; PACKET_RECORD_LENGTH];
    for round in first..node.slots.round {
        // `write_packet` and `put` take the number
        for k in 0..node.outs.len() {
            node.write_packet(round, k, &mut packet);
            outlet.put(k, &packet)?;
        }
    }
    outlet.flush()
}

fn work<R: Read>(
    program: Program,
    node: Node,
    input: &mut R,
    outlet: &mut Outlet,
) -> Result<(), Stopped> {
    let intake = Intake::new(program.rt.alloc(), node).map_err(OutOfMemory::from);
    let mut intake = program.or_end(intake)?;
    // a bound, so that the loop is known to end; `listen` goes round in the same way, but for what it does with a round, in its midst
    for _ in 0..u64::MAX {
        let Some(rounds) = intake.take_next(program, input)? else {
            break;
        };
        if rounds > 0 {
            program.or_stop("output", send(&intake.node, rounds, outlet))?;
        }
    }
    intake.tell_end(program)
}

fn usage<T>(rt: &HostRuntime) -> Result<T, Stopped> {
    eprintln!(rt; "usage: box NET PLAN PLACE [--lines DIR]")?;
    Err(Stopped)
}

fn run(program: Program) -> Result<(), Stopped> {
    let rt = program.rt;
    let mut words = env::args(rt)?.skip(1);
    let (Some(net), Some(plan), Some(place)) = (words.next(), words.next(), words.next()) else {
        return usage(rt);
    };
    let option = words.next();
    let folder = words.next();
    let more = words.next();
    let node = read_node(
        program,
        net.as_str(),
        plan.as_str(),
        place.as_str(),
        Role::Relay,
    )?;
    let input = BufReader::new(rt.alloc(), rt.stdin());
    let mut input = program.or_stop("standard input", input)?;
    let mut outlet = match (option, folder, more) {
        (None, None, None) => {
            let out = BufWriter::new(rt.alloc(), rt.stdout());
            Outlet::Together(program.or_stop("output", out)?)
        }
        (Some(option), Some(folder), None) => {
            if option.as_str() != "--lines" {
                return usage(rt);
            }
            let folder = folder.as_str();
            Outlet::Apart(program.or_stop(folder, open_lines(rt, &node, folder))?)
        }
        _ => return usage(rt),
    };
    work(program, node, &mut input, &mut outlet)
}

fn main(rt: HostRuntime) -> ExitCode {
    status(run(Program {
        rt: &rt,
        name: "box",
    }))
}
