// The links of a network, listed by their ends.
ghost use Rattle.std.specs.Prelude.{◌≡◌, ◌<◌, [], ◌∷◌, ◌++◌, map, vec_items, vec_len, length, replicate, IfOk, OnOk, slice_index_or, slice_set};
ghost use Rattle.network.specs.Network.{link_at};
ghost use Rattle.network.specs.Values.{graph};
ghost use Rattle.flow_search.specs.Rows.{Lists};

use network::Network;
use std::alloc::{AllocError, Global};

// For each node the links out of it and the links into it, by rising number. Two lists of lists, since a search goes through one after the other.
#[derive(Drop)]
pub struct Adjacency<'a> {
    pub network: &'a Network,
    pub out: Vec<Vec<u16>>,
    pub into: Vec<Vec<u16>>,
    ghost lists_out: { Lists (λ k. (link_at (graph network.now).links k).from) network.now.nodes (length (graph network.now).links) (map vec_items out.items) },
    ghost lists_into: { Lists (λ k. (link_at (graph network.now).links k).to) network.now.nodes (length (graph network.now).links) (map vec_items into.items) },
}

// An empty list for each node.
fn empty_lists(heap: Global, nodes: u16) -> Result<Vec<Vec<u16>>, AllocError>
    ensures { IfOk result (λ v. map vec_items v.items ≡ replicate nodes []) }
{
    let mut lists = Vec::with_capacity(heap, nodes as usize)?;
    for _ in 0..nodes {
        lists.push(Vec::new(heap))?;
    }
    Ok(lists)
}

// Puts a link at the end of a node's list.
fn add(lists: &mut Vec<Vec<u16>>, node: u16, link: u16) -> Result<(), AllocError>
    requires { node < vec_len lists.old }
    ensures { OnOk result (map vec_items lists.new.items ≡ slice_set (map vec_items lists.old.items) node (slice_index_or (map vec_items lists.old.items) node [] ++ link ∷ [])) }
{
    lists[node as usize].push(link)?;
    Ok(())
}

impl<'a> Adjacency<'a> {
    pub fn of(heap: Global, network: &'a Network) -> Result<Adjacency<'a>, AllocError>
        ensures { IfOk result (λ a. a.network.now ≡ network.now) }
    {
        let mut out = empty_lists(heap, network.nodes)?;
        let mut into = empty_lists(heap, network.nodes)?;
        for (k, link) in network.links.iter().enumerate() {
            add(&mut out, link.from, k as u16)?;
            add(&mut into, link.to, k as u16)?;
        }
        Ok(Adjacency { network, out, into })
    }
}
