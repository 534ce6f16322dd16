// Plans how to send a stream over a net: writes the plan, and prints the ways to each listener, or a cut.
#![tactic(auto)]

use coding::Aim;
use console::{OutOfMemory, Program, Stopped, replace_file, status, write_cut, write_line};
use network::Network;
use planner::{Routes, make_plan_with_routes};
use std::io::{BufWriter, Write};
use std::process::ExitCode;
use std::{env, io};
use wire::Fitted;

fn write_way<W: Write>(
    out: &mut W,
    network: &Network,
    number: usize,
    way: &[u16],
) -> io::Result<()> {
    write!(out, "  way {number}: ")?;
    for (i, link) in way.iter().enumerate() {
        if i > 0 {
            write!(out, ", ")?;
        }
        write_line(out, network, *link as usize)?;
    }
    writeln!(out)
}

fn write_ways<W: Write>(out: &mut W, network: &Network, aims: &[Aim]) -> io::Result<()> {
    for aim in aims {
        let listener = aim.node;
        writeln!(out, "listener {listener}")?;
        for (i, way) in aim.paths.iter().enumerate() {
            write_way(out, network, i + 1, way)?;
        }
    }
    Ok(())
}

fn plan(program: Program, path: &str, target: &str) -> Result<(), Stopped> {
    let heap = program.rt.alloc();
    let net = program.read_net(path)?;
    let made = make_plan_with_routes(heap, &net).map_err(OutOfMemory::from);
    let (routes, plan) = program.or_stop(path, made)?;
    let fitted = Fitted {
        net: &net,
        plan: &plan,
    };
    let bytes = wire::write(heap, &fitted).map_err(OutOfMemory::from);
    let bytes = program.or_stop(path, bytes)?;
    program.or_stop(target, replace_file(program.rt, target, &bytes))?;
    let mut out = BufWriter::new(heap, program.rt.stdout())?;
    match routes {
        Routes::Paths(aims) => write_ways(&mut out, &net.network, &aims)?,
        Routes::Cut { receiver, side } => write_cut(&mut out, &net.network, receiver, &side)?,
    }
    out.flush()?;
    Ok(())
}

fn run(program: Program) -> Result<(), Stopped> {
    let mut words = env::args(program.rt)?.skip(1);
    let (Some(net), Some(target), None) = (words.next(), words.next(), words.next()) else {
        eprintln!(program.rt; "usage: plan NET PLAN")?;
        return Err(Stopped);
    };
    plan(program, net.as_str(), target.as_str())
}

fn main(rt: HostRuntime) -> ExitCode {
    status(run(Program {
        rt: &rt,
        name: "plan",
    }))
}
