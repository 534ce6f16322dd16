// Reading a plan for a net.
ghost use Rattle.std.specs.Prelude.{◌≡◌, ℕ, ◌+◌, ◌*◌, ◌<◌, ◌≤◌, nat_lt, ◌&&◌, ◌==◌, map, length, drop, IfOk, IfErr, vec_items, vec_len, slice_index};
ghost use Rattle.network.specs.Network.{link_at};
ghost use Rattle.network.specs.Values.{graph, value};
ghost use Rattle.wire.specs.Plan.{feeding, hand_at, hands, Fits};
ghost use Rattle.wire.specs.Format.{each, link_item, reader_item, served_items, cut_item, items, words_in, rows_in, all_come, side_in, beyond, among, plan_bytes};
ghost use Rattle.wire.specs.Values.{reader, plan, Reads, Answers, Settled};

use crate::fault::{Fault, ReadError};
use crate::plan::{Coded, Decoder, Plan};
use crate::rest::Rest;
use network::{Multicast, Network};
use octets::{read_word, word_at};
use std::alloc::{AllocError, Global};
use std::array;

// The heap and the net go along with what is left of the bytes: a value of all three would be taken apart by each function below.

// Reads a plan for a net: it is the one whose bytes these are, and fits the net, or the first item with a fault is told by its lowest fault.
pub fn read(heap: Global, net: &Multicast, bytes: &[u8]) -> Result<Plan, ReadError>
    ensures answer { Answers (value net.now) bytes.now result }
    ensures fits { IfOk result (λ p. Fits (value net.now) (plan p)) }
    ensures kept { IfOk result (λ p. plan_bytes (plan p) ≡ bytes.now) }
    ensures settled { IfErr result (λ e. Settled (value net.now) bytes.now e) }
{
    let mut rest = Rest { at: 0, bytes };
    let plan = read_items(heap, net, &mut rest)?;
    if !rest.bytes.is_empty() {
        return Err(ReadError::Faulty(Fault::Malformed, rest.at));
    }
    Ok(plan)
}

fn read_items(heap: Global, net: &Multicast, rest: &mut Rest) -> Result<Plan, ReadError>
    ensures { Reads plan (items (value net.now) rest.old.at rest.old.bytes.now) rest.new result }
{
    let at = rest.at;
    let [first, kind, ..] = rest.bytes else {
        return Err(ReadError::Faulty(Fault::Malformed, at));
    };
    if *first != 2 {
        return Err(ReadError::Faulty(Fault::Malformed, at));
    }
    match *kind {
        1 => {
            rest.pass(2);
            read_served(heap, net, rest)
        }
        2 => {
            rest.pass(2);
            read_cut(net, rest)
        }
        _ => Err(ReadError::Faulty(Fault::Malformed, at)),
    }
}

fn read_served(heap: Global, net: &Multicast, rest: &mut Rest) -> Result<Plan, ReadError>
    ensures { Reads plan (served_items (value net.now) rest.old.at rest.old.bytes.now) rest.new result }
{
    let coefficients = read_coefficients(heap, net, rest)?;
    let receivers = read_decoders(heap, net, rest)?;
    Ok(Plan::Served(Coded {
        coefficients,
        receivers,
    }))
}

// How many links come into each node.
fn count_feeding(network: &Network) -> [u16; 256]
    ensures { (p : ℕ) → p < 256 → slice_index result p ≡ feeding p (graph network.now).links }
{
    let mut counts = [0u16; 256];
    for link in &network.links {
        counts[link.to as usize] += 1;
    }
    counts
}

// How many packets are at hand at a node.
fn hand_at(net: &Multicast, counts: &[u16; 256], node: u16) -> usize
    requires node { node < 256 }
    requires counts { (p : ℕ) → p < 256 → slice_index counts.now p ≡ feeding p (graph net.now.network).links }
    ensures { result ≡ hand_at (value net.now) node }
{
    if node == 0 {
        net.rate as usize
    } else {
        counts[node as usize] as usize
    }
}

// The coefficients of a link, with their count before them.
fn read_row(heap: Global, rest: &mut Rest, hand: usize) -> Result<Vec<u8>, ReadError>
    ensures { Reads vec_items (link_item hand rest.old.at rest.old.bytes.now) rest.new result }
{
    let at = rest.at;
    let count = word_at(rest.bytes, 0).ok_or(ReadError::Faulty(Fault::Malformed, at))? as usize;
    if rest.bytes.len() < 2 + count {
        return Err(ReadError::Faulty(Fault::Malformed, at));
    }
    if count != hand {
        return Err(ReadError::Faulty(Fault::Unfit, at));
    }
    let row = Vec::from_slice(heap, &rest.bytes[2..2 + count]).map_err(|_| ReadError::Memory(at))?;
    rest.pass(2 + count);
    Ok(row)
}

fn read_coefficients(
    heap: Global,
    net: &Multicast,
    rest: &mut Rest,
) -> Result<Vec<Vec<u8>>, ReadError>
    ensures { Reads (λ v. map vec_items v.items) (each link_item (hands (value net.now)) rest.old.at rest.old.bytes.now) rest.new result }
{
    let counts = count_feeding(&net.network);
    let mut rows = Vec::new(heap);
    for link in &net.network.links {
        let at = rest.at;
        let hand = hand_at(net, &counts, link.from);
        let row = read_row(heap, rest, hand)?;
        rows.push(row).map_err(|_| ReadError::Memory(at))?;
    }
    Ok(rows)
}

// Whether a link is there, and comes into a node.
fn comes(network: &Network, link: u16, node: u16) -> bool
    ensures { result ≡ (nat_lt link (length (graph network.now).links) && (link_at (graph network.now).links link).to == node) }
{
    network
        .links
        .get(link as usize)
        .is_some_and(|link| link.to == node)
}

// Whether the next words are links that come into a node. Words are counted as the format's definition counts them.
fn all_come(network: &Network, words: &[u8], count: usize, node: u16) -> bool
    requires { 2 * count ≤ length words.now }
    ensures { result ≡ all_come (graph network.now).links node (words_in count words.now) }
{
    (0..count).all(|j| comes(network, read_word(words, 2 * j), node))
}

fn read_words(heap: Global, words: &[u8], count: usize) -> Result<Vec<u16>, AllocError>
    requires { 2 * count ≤ length words.now }
    ensures { IfOk result (λ v. v.items ≡ words_in count words.now) }
{
    (0..count).map(|j| read_word(words, 2 * j)).collect(heap)
}

// Rows of h bytes, h of them.
fn read_rows(heap: Global, bytes: &[u8], h: usize) -> Result<Vec<Vec<u8>>, AllocError>
    requires some { 1 ≤ h }
    requires few { h ≤ 32 }
    requires long { h * h ≤ length bytes.now }
    ensures { IfOk result (λ v. map vec_items v.items ≡ rows_in h h bytes.now) }
{
    let mut rows = Vec::with_capacity(heap, h)?;
    for row in bytes[..h * h].chunks_exact(h) {
        rows.push(Vec::from_slice(heap, row)?)?;
    }
    Ok(rows)
}

fn make_decoder(heap: Global, bytes: &[u8], h: usize) -> Result<Decoder, AllocError>
    requires some { 1 ≤ h }
    requires few { h ≤ 32 }
    requires long { 2 * h + h * h ≤ length bytes.now }
    ensures { IfOk result (λ d. (d.links.items ≡ words_in h bytes.now) × (map vec_items d.rows.items ≡ rows_in h h (drop (2 * h) bytes.now))) }
{
    let links = read_words(heap, bytes, h)?;
    let rows = read_rows(heap, &bytes[2 * h..], h)?;
    Ok(Decoder { links, rows })
}

// The links and rows of a receiver.
fn read_decoder(
    heap: Global,
    net: &Multicast,
    rest: &mut Rest,
    node: u16,
) -> Result<Decoder, ReadError>
    ensures { Reads reader (reader_item (graph net.now.network).links net.now.rate node rest.old.at rest.old.bytes.now) rest.new result }
{
    let at = rest.at;
    let h = net.rate as usize;
    let size = 2 * h + h * h;
    if rest.bytes.len() < size {
        return Err(ReadError::Faulty(Fault::Malformed, at));
    }
    if !all_come(&net.network, rest.bytes, h, node) {
        return Err(ReadError::Faulty(Fault::Unfit, at));
    }
    let decoder = make_decoder(heap, rest.bytes, h).map_err(|_| ReadError::Memory(at))?;
    rest.pass(size);
    Ok(decoder)
}

fn read_decoders(heap: Global, net: &Multicast, rest: &mut Rest) -> Result<Vec<Decoder>, ReadError>
    ensures { Reads (λ v. map reader v.items) (each (reader_item (graph net.now.network).links net.now.rate) net.now.receivers.items rest.old.at rest.old.bytes.now) rest.new result }
{
    let mut decoders = Vec::new(heap);
    for receiver in &net.receivers {
        let at = rest.at;
        let decoder = read_decoder(heap, net, rest, *receiver)?;
        decoders.push(decoder).map_err(|_| ReadError::Memory(at))?;
    }
    Ok(decoders)
}

// A flag for each node, of which the last of 32 bytes has the first eight.
fn read_side(bytes: &[u8]) -> [bool; 256]
    requires { 32 ≤ length bytes.now }
    ensures { result ≡ side_in bytes.now }
{
    array::from_fn(|p| (bytes[31 - p / 8] >> (p % 8)) % 2 == 1)
}

// Whether a node that is not there is flagged.
fn is_beyond(nodes: u16, side: &[bool; 256]) -> bool
    ensures { result ≡ beyond nodes side.now }
{
    side.iter().skip(nodes as usize).any(|flag| *flag)
}

// A receiver with its cut.
fn read_cut(net: &Multicast, rest: &mut Rest) -> Result<Plan, ReadError>
    ensures { Reads plan (cut_item (value net.now) rest.old.at rest.old.bytes.now) rest.new result }
{
    let at = rest.at;
    if rest.bytes.len() < 34 {
        return Err(ReadError::Faulty(Fault::Malformed, at));
    }
    let receiver = read_word(rest.bytes, 0);
    let side = read_side(&rest.bytes[2..]);
    if receiver >= net.network.nodes || is_beyond(net.network.nodes, &side) {
        return Err(ReadError::Faulty(Fault::OutOfRange, at));
    }
    if !net.receivers.contains(&receiver) {
        return Err(ReadError::Faulty(Fault::Unfit, at));
    }
    rest.pass(34);
    Ok(Plan::Unserved { receiver, side })
}
