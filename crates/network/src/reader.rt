// Reading a net. All items are judged before any memory is asked for, so a fault is told however little memory there is.
ghost use Rattle.std.specs.Prelude.{◌≡◌, ℕ, ◌+◌, ◌*◌, ◌<◌, ◌≤◌, true, false, map, length, get_or, MatchOption, IfOk, IfErr, slice_index_or};
ghost use Rattle.std.specs.List.{range_with_len};
ghost use Rattle.network.specs.Network.{Accepted, Limits, Rates};
ghost use Rattle.octets.specs.Reading.{fine, next};
ghost use Rattle.octets.specs.Words.{word_at};
ghost use Rattle.network.specs.Format.{bytes_of, nodes_in, links_in, rate_in, receivers_in, from_in, to_in, receiver_in, link_fault, receiver_fault, unfed, head_item, link_items, links_end, counts_item, receiver_items, end_item, fault_in, net_in};
ghost use Rattle.network.specs.Values.{value, Answers, Settled, Tells, Names};

use crate::fault::{Fault, ReadError};
use crate::net::{Link, Multicast, Network};
use octets::{read_word, word, word_at};
use std::alloc::{AllocError, Global};

// Reads a net: it is the one whose bytes these are, or the first item with a fault is told by its lowest fault.
pub fn read(heap: Global, bytes: &[u8]) -> Result<Multicast, ReadError>
    ensures answer { Answers bytes.now result }
    ensures kept { IfOk result (λ m. bytes_of (value m) ≡ bytes.now) }
    ensures accepted { IfOk result (λ m. Accepted (value m)) }
    ensures settled { IfErr result (λ e. Settled bytes.now e) }
{
    let (head, counts) = check(bytes)?;
    let net = head.build(heap, counts)?;
    Ok(net)
}

// Bytes that begin with the counts of a net.
#[derive(Clone, Copy)]
struct Headed<'a> {
    bytes: &'a [u8],
    nodes: u16,
    links: u16,
    ghost nodes_is: { nodes ≡ nodes_in bytes.now },
    ghost links_is: { links ≡ links_in bytes.now },
    ghost limits: { Limits nodes links },
    ghost long: { 5 ≤ length bytes.now },
}

// The counts that stand behind its links.
#[derive(Clone, Copy)]
struct Counts {
    rate: u8,
    receivers: u8,
}

fn read_head(bytes: &[u8]) -> Result<Headed<'_>, ReadError>
    ensures tells { Tells (head_item bytes.now) result }
    ensures same { IfOk result (λ h. h.bytes.now ≡ bytes.now) }
{
    let [kind, nodes_high, nodes_low, links_high, links_low, ..] = bytes else {
        return Err(ReadError::Faulty(Fault::Malformed, 0));
    };
    if *kind != 1 {
        return Err(ReadError::Faulty(Fault::Malformed, 0));
    }
    let nodes = word(*nodes_high, *nodes_low);
    let links = word(*links_high, *links_low);
    if nodes < 1 || nodes > 256 || links > 1024 {
        return Err(ReadError::Faulty(Fault::OutOfRange, 0));
    }
    Ok(Headed {
        bytes,
        nodes,
        links,
    })
}

// The link whose bytes begin at byte `at`, if they are there.
fn link_at(bytes: &[u8], at: usize) -> Option<Link>
    ensures { MatchOption result (length bytes.now < at + 4) (λ l. (at + 4 ≤ length bytes.now) × (l.from ≡ word_at bytes.now at) × (l.to ≡ word_at bytes.now (at + 2))) }
{
    let from = word_at(bytes, at)?;
    let to = word_at(bytes, at + 2)?;
    Some(Link { from, to })
}

// The lowest fault of a link behind those that leave the nodes in `left`.
fn judge_link(nodes: u16, link: Link, left: &[bool; 256]) -> Result<(), Fault>
    requires { nodes ≤ 256 }
    ensures { Names (link_fault nodes link.from link.to (slice_index_or left.now link.to false)) result }
{
    if link.from >= nodes || link.to >= nodes {
        return Err(Fault::OutOfRange);
    }
    if link.to == 0 || link.from == link.to {
        return Err(Fault::Misdirected);
    }
    if left[link.to as usize] {
        return Err(Fault::OutOfOrder);
    }
    Ok(())
}

// Whether links leave one of the nodes, not the source, and none comes into it.
fn some_unfed(nodes: u16, left: &[bool; 256], entered: &[bool; 256]) -> bool
    requires { (1 ≤ nodes) × (nodes ≤ 256) }
    ensures { result ≡ unfed (λ p. get_or left.now p false) (λ p. get_or entered.now p false) nodes }
{
    (1..nodes).any(|p| left[p as usize] && !entered[p as usize])
}

// The lowest fault of a receiver at `place` behind one at `before`, which is 0 for the first.
fn judge_receiver(nodes: u16, before: u16, place: u16) -> Result<(), Fault>
    ensures { Names (receiver_fault nodes before place) result }
{
    if place >= nodes {
        return Err(Fault::OutOfRange);
    }
    if place <= before {
        return Err(Fault::Receivers);
    }
    Ok(())
}

// Link k.
fn read_link(bytes: &[u8], k: u16) -> Link
    requires { 9 + 4 * k ≤ length bytes.now }
    ensures { result ≡ record { from = from_in bytes.now k; to = to_in bytes.now k } }
{
    let at = 5 + 4 * k as usize;
    Link {
        from: read_word(bytes, at),
        to: read_word(bytes, at + 2),
    }
}

// Receiver i behind that many links.
fn read_receiver(bytes: &[u8], links: u16, i: u8) -> u16
    requires { 9 + 4 * links + 2 * i ≤ length bytes.now }
    ensures { result ≡ receiver_in bytes.now links i }
{
    read_word(bytes, 7 + 4 * links as usize + 2 * i as usize)
}

fn read_links(heap: Global, bytes: &[u8], count: u16) -> Result<Vec<Link>, AllocError>
    requires { 5 + 4 * count ≤ length bytes.now }
    ensures { IfOk result (λ v. v.items ≡ map (λ k. record { from = from_in bytes.now k; to = to_in bytes.now k }) (range_with_len 0 count)) }
{
    (0..count).map(|k| read_link(bytes, k)).collect(heap)
}

fn read_receivers(heap: Global, bytes: &[u8], links: u16, count: u8) -> Result<Vec<u16>, AllocError>
    requires { 7 + 4 * links + 2 * count ≤ length bytes.now }
    ensures { IfOk result (λ v. v.items ≡ map (receiver_in bytes.now links) (range_with_len 0 count)) }
{
    (0..count)
        .map(|i| read_receiver(bytes, links, i))
        .collect(heap)
}

impl Headed<'_> {
    // The links, and their end.
    fn check_links(&self) -> Result<(), ReadError>
        ensures { Tells (next (link_items self.now.bytes.now) (links_end self.now.bytes.now)) result }
    {
        let mut left = [false; 256];
        let mut entered = [false; 256];
        // By number, since the number says at which byte a link begins, and a fault tells that byte.
        for k in 0..self.links {
            let at = 5 + 4 * k as usize;
            let link = link_at(self.bytes, at).ok_or(ReadError::Faulty(Fault::Malformed, at))?;
            judge_link(self.nodes, link, &left).map_err(|fault| ReadError::Faulty(fault, at))?;
            left[link.from as usize] = true;
            entered[link.to as usize] = true;
        }
        if some_unfed(self.nodes, &left, &entered) {
            return Err(ReadError::Faulty(Fault::Unfed, 5 + 4 * self.links as usize));
        }
        Ok(())
    }

    // The rate and the number of receivers, which stand behind the links.
    fn read_counts(&self) -> Result<Counts, ReadError>
        ensures tells { Tells (counts_item self.now.bytes.now) result }
        ensures counts { IfOk result (λ n. (n.rate ≡ rate_in self.now.bytes.now self.now.links) × (n.receivers ≡ receivers_in self.now.bytes.now self.now.links) × Rates n.rate n.receivers × (7 + 4 * self.now.links ≤ length self.now.bytes.now)) }
    {
        let at = 5 + 4 * self.links as usize;
        if self.bytes.len() < at + 2 {
            return Err(ReadError::Faulty(Fault::Malformed, at));
        }
        let rate = self.bytes[at];
        let receivers = self.bytes[at + 1];
        if rate < 1 || rate > 32 || receivers < 1 || receivers > 64 {
            return Err(ReadError::Faulty(Fault::OutOfRange, at));
        }
        Ok(Counts { rate, receivers })
    }

    // The receivers, and the end of the bytes.
    fn check_receivers(&self, count: u8) -> Result<(), ReadError>
        requires count { count ≡ receivers_in self.now.bytes.now self.now.links }
        requires long { 7 + 4 * self.now.links ≤ length self.now.bytes.now }
        ensures { Tells (next (receiver_items self.now.bytes.now) (end_item self.now.bytes.now)) result }
    {
        let start = 7 + 4 * self.links as usize;
        let mut before = 0;
        // by number, as above
        for i in 0..count {
            let at = start + 2 * i as usize;
            let place = word_at(self.bytes, at).ok_or(ReadError::Faulty(Fault::Malformed, at))?;
            judge_receiver(self.nodes, before, place).map_err(|fault| ReadError::Faulty(
                fault, at,
            ))?;
            before = place;
        }
        let end = start + 2 * count as usize;
        if self.bytes.len() > end {
            return Err(ReadError::Faulty(Fault::Malformed, end));
        }
        Ok(())
    }

    // The net in bytes that have no fault.
    fn build(&self, heap: Global, counts: Counts) -> Result<Multicast, AllocError>
        requires fine { fault_in self.now.bytes.now ≡ fine }
        requires counts { (counts.rate ≡ rate_in self.now.bytes.now (links_in self.now.bytes.now)) × (counts.receivers ≡ receivers_in self.now.bytes.now (links_in self.now.bytes.now)) }
        ensures { IfOk result (λ m. value m ≡ net_in self.now.bytes.now) }
    {
        let links = read_links(heap, self.bytes, self.links)?;
        let receivers = read_receivers(heap, self.bytes, self.links, counts.receivers)?;
        let network = Network {
            nodes: self.nodes,
            links,
        };
        Ok(Multicast {
            network,
            rate: counts.rate,
            receivers,
        })
    }
}

// Judges all items in their order.
fn check(bytes: &[u8]) -> Result<(Headed<'_>, Counts), ReadError>
    ensures tells { Tells (fault_in bytes.now) result }
    ensures same { IfOk result (λ p. p.0.bytes.now ≡ bytes.now) }
    ensures counts { IfOk result (λ p. (p.1.rate ≡ rate_in bytes.now (links_in bytes.now)) × (p.1.receivers ≡ receivers_in bytes.now (links_in bytes.now))) }
{
    let head = read_head(bytes)?;
    head.check_links()?;
    let counts = head.read_counts()?;
    head.check_receivers(counts.receivers)?;
    Ok((head, counts))
}
