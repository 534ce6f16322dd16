// Plays a whole net for a message file: every box and listener, round by round.
#![tactic(auto)]

ghost use Rattle.std.specs.Prelude.{◌≡◌, ◌*◌, ◌<◌, length, vec_len};

use console::{OutOfMemory, Program, Stopped, status, write_cut};
use gf_bytes::PACKET_LENGTH;
use relay_console::fill;
use relay_node::NodeError;
use run::{Player, fill_up};
use std::fs::File;
use std::io::{BufReader, BufWriter, Read, Write};
use std::process::ExitCode;
use std::time::Instant;
use std::{env, io};
use wire::{Fitted, Plan};

// Messages are numbered up to 2^32 - 2.
const MOST: u64 = 4294967295;

// After a message, who of the listeners has all so far.
fn mark(player: &Player, bytes: &[u8], has: &mut [bool])
    requires played { 0 < player.now.round }
    requires long { length bytes.now ≡ player.now.net.now.rate * 1024 }
    requires all { length has.old ≡ vec_len player.now.net.now.receivers }
{
    for (i, all) in has.iter_mut().enumerate() {
        *all = *all && player.has(i, bytes);
    }
}

fn write_result<W: Write>(out: &mut W, player: &Player, has: &[bool]) -> io::Result<()> {
    for (listener, all) in player.net.receivers.iter().zip(has) {
        let word = if *all { "has it" } else { "has not" };
        writeln!(out, "listener {listener}: {word}")?;
    }
    for (k, count) in player.counts.iter().enumerate() {
        writeln!(out, "line {k}: {count}")?;
    }
    out.flush()
}

// Says every second how far it is.
fn tell_progress(rt: &HostRuntime, since: Instant, round: u64) -> Result<Instant, Stopped> {
    if round % 64 != 0 {
        return Ok(since);
    }
    if since.elapsed(rt)?.as_secs() == 0 {
        return Ok(since);
    }
    eprintln!(rt; "play: {round} rounds")?;
    Ok(Instant::now(rt)?)
}

// Plays message after message.
fn play_all<R: Read>(
    program: Program,
    player: &mut Player,
    path: &str,
    input: &mut R,
    has: &mut [bool],
) -> Result<(), Stopped>
    requires fresh { player.old.round ≡ 0 }
    requires all { length has.old ≡ vec_len player.old.net.now.receivers }
{
    let rt = program.rt;
    let length = player.net.rate as usize * PACKET_LENGTH;
    let bytes = vec![in rt.alloc(); 0u8; length].map_err(OutOfMemory::from);
    let mut bytes = program.or_end(bytes)?;
    let mut since = Instant::now(rt)?;
    for round in 0..MOST {
        let count = program.or_stop(path, fill(input, &mut bytes))?;
        if count == 0 {
            return Ok(());
        }
        fill_up(&mut bytes, count);
        player.play(&bytes);
        mark(player, &bytes, has);
        since = tell_progress(rt, since, round)?;
    }
    if fill(input, &mut bytes)? == 0 {
        return Ok(());
    }
    eprintln!(rt; "play: the message file is too long: there are {MOST} rounds at most")?;
    Err(Stopped)
}

fn play(program: Program, mut player: Player, path: &str) -> Result<(), Stopped>
    requires { player.round ≡ 0 }
{
    let rt = program.rt;
    let file = program.or_stop(path, File::open(rt, path))?;
    // beside the net's receivers, since the net is lent
    let has = vec![in rt.alloc(); true; player.net.receivers.len()].map_err(OutOfMemory::from);
    let mut has = program.or_end(has)?;
    let mut input = BufReader::new(rt.alloc(), file)?;
    play_all(program, &mut player, path, &mut input, &mut has)?;
    let mut out = BufWriter::new(rt.alloc(), rt.stdout())?;
    write_result(&mut out, &player, &has)?;
    Ok(())
}

fn run_player(program: Program) -> Result<(), Stopped> {
    let rt = program.rt;
    let mut words = env::args(rt)?.skip(1);
    let (Some(net_path), Some(plan_path), Some(path), None) = (
        words.next(),
        words.next(),
        words.next(),
        words.next(),
    ) else {
        eprintln!(rt; "usage: play NET PLAN MESSAGE")?;
        return Err(Stopped);
    };
    let net = program.read_net(net_path.as_str())?;
    let plan = program.read_plan(plan_path.as_str(), &net)?;
    if let Plan::Unserved { receiver, side } = &plan {
        let mut out = BufWriter::new(rt.alloc(), rt.stdout())?;
        write_cut(&mut out, &net.network, *receiver, side)?;
        out.flush()?;
        return Ok(());
    }
    let fitted = Fitted {
        net: &net,
        plan: &plan,
    };
    match Player::new(rt.alloc(), &fitted) {
        Ok(player) => play(program, player, path.as_str()),
        Err(NodeError::Memory) => {
            eprintln!(rt; "play: not enough memory")?;
            Err(Stopped)
        }
        Err(_) => {
            eprintln!(rt; "play: the plan does not fit the net")?;
            Err(Stopped)
        }
    }
}

fn main(rt: HostRuntime) -> ExitCode {
    status(run_player(Program {
        rt: &rt,
        name: "play",
    }))
}
