// Printing links and cuts, in the words of the formats.
ghost use Rattle.std.specs.Prelude.{◌≡◌, ◌<◌, ◌≤◌, OnOk, vec_len};
ghost use Rattle.std.specs.Io.KnownBytes.{Appends, Keeps};
ghost use Rattle.network.specs.Network.{link_at};
ghost use Rattle.network.specs.Links.{link_of};
ghost use Rattle.network.specs.Values.{graph};
ghost use Rattle.network_cuts.specs.Cut.{out};
ghost use Rattle.console.specs.Side.{within, leaves};
ghost use Rattle.console.specs.Text.{line_text, line_out, cut_text};

use network::{Link, Network};
use std::io;
use std::io::Write;

// A line by its number and its ends; nothing where there is none.
pub fn write_line<W: Write>(out: &mut W, network: &Network, k: usize) -> io::Result<()>
    ensures line { OnOk result (k < vec_len network.now.links → Appends (W.contents out.old) (W.contents out.new) (line_text k (link_at (graph network.now).links k))) }
    ensures none { OnOk result (vec_len network.now.links ≤ k → Keeps (W.contents out.old) (W.contents out.new)) }
{
    match network.links.get(k) {
        Some(link) => write_link(out, k, link),
        None => Ok(()),
    }
}

fn write_link<W: Write>(out: &mut W, k: usize, link: &Link) -> io::Result<()>
    ensures { OnOk result (Appends (W.contents out.old) (W.contents out.new) (line_text k (link_of link.now))) }
{
    let Link { from, to } = *link;
    write!(out, "{k} ({from}-{to})")
}

fn is_within(side: &[bool; 256], node: u16) -> bool
    ensures { result ≡ within side.now node }
{
    side.get(node as usize).copied().unwrap_or(false)
}

// Whether a line leads out of the set.
fn leads_out(side: &[bool; 256], link: &Link) -> bool
    ensures { result ≡ leaves side.now (link_of link.now) }
{
    is_within(side, link.from) && !is_within(side, link.to)
}

// How many lines lead out of the set.
fn count_out(network: &Network, side: &[bool; 256]) -> usize
    ensures { result ≡ out (within side.now) (graph network.now).links }
{
    network
        .links
        .iter()
        .filter(|link| leads_out(side, link))
        .count()
}

// Line k, if it leads out of the set.
fn write_if_out<W: Write>(out: &mut W, side: &[bool; 256], k: usize, link: &Link) -> io::Result<()>
    ensures { OnOk result (Appends (W.contents out.old) (W.contents out.new) (line_out side.now k (link_of link.now))) }
{
    if leads_out(side, link) {
        write!(out, "  ")?;
        write_link(out, k, link)?;
        writeln!(out)?;
    }
    Ok(())
}

// A listener with a cut, and the lines that lead out of it.
pub fn write_cut<W: Write>(
    out: &mut W,
    network: &Network,
    listener: u16,
    side: &[bool; 256],
) -> io::Result<()>
    ensures { OnOk result (Appends (W.contents out.old) (W.contents out.new) (cut_text side.now listener (graph network.now).links)) }
{
    let count = count_out(network, side);
    writeln!(out, "listener {listener}: cut, {count} lines lead out")?;
    for (k, link) in network.links.iter().enumerate() {
        write_if_out(out, side, k, link)?;
    }
    Ok(())
}
