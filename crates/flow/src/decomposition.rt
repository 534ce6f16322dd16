// The paths that used links make up.
ghost use Rattle.std.specs.Prelude.{◌≡◌, ℕ, ◌<◌, true, List, [], ◌∷◌, ◌++◌, map, length, IfOk, vec_items, MatchOption, OnOk, slice_index};
ghost use Rattle.network.specs.Values.{graph};
ghost use Rattle.flow_theory.specs.Flow.{flagged, used_count, follow as followed, parted, turn_all};

use flow_search::Search;
use std::alloc::{AllocError, Global};

// Parts the used links into paths from the source to the receiver, and takes them.
pub fn part(
    heap: Global,
    search: &mut Search,
    receiver: u16,
    count: u8,
) -> Result<Vec<Vec<u16>>, AllocError>
    ensures { IfOk result (λ v. map vec_items v.items ≡ parted (graph search.old.adjacency.now.network.now).links receiver count search.old.used.items) }
{
    let mut paths = Vec::with_capacity(heap, count as usize)?;
    for _ in 0..count {
        let mut path = Vec::new(heap);
        follow(search, receiver, 0, &mut path)?;
        paths.push(path)?;
    }
    Ok(paths)
}

// Follows used links from a node to the receiver, from each node the one of the lowest number, and takes them.
fn follow(
    search: &mut Search,
    receiver: u16,
    node: u16,
    path: &mut Vec<u16>,
) -> Result<(), AllocError>
    requires { node < search.old.adjacency.now.network.now.nodes }
    ensures path { OnOk result (path.new.items ≡ path.old.items ++ followed (graph search.old.adjacency.now.network.now).links receiver (used_count search.old.used.items) node search.old.used.items) }
    ensures used { OnOk result (search.new.used.items ≡ turn_all (followed (graph search.old.adjacency.now.network.now).links receiver (used_count search.old.used.items) node search.old.used.items) search.old.used.items) }
    ensures same { search.new.adjacency ≡ search.old.adjacency }
{
    if node == receiver {
        return Ok(());
    }
    let adjacency = search.adjacency;
    let Some(link) = first_used(&adjacency.out[node as usize], &search.used) else {
        return Ok(());
    };
    search.used[link as usize] = false;
    path.push(link)?;
    let next = adjacency.network.links[link as usize].to;
    follow(search, receiver, next, path)
}

// The first link of a list that is used. A loop, since what bounds the numbers in the list is asked of all of it.
fn first_used(row: &[u16], used: &[bool]) -> Option<u16>
    requires { (j : ℕ) → j < length row.now → slice_index row.now j < length used.now }
    ensures { MatchOption result (flagged used.now true row.now ≡ []) (λ k. (ks : List ℕ) × (flagged used.now true row.now ≡ k ∷ ks)) }
{
    for link in row {
        if used[*link as usize] {
            return Some(*link);
        }
    }
    None
}
