ghost use Rattle.std.specs.Prelude.{◌<◌, length};

use flow::{Found, Refusal, paths_or_cut};
use flow_search::Adjacency;
use std::alloc::{AllocError, Global};
use std::process::Abort;
use std::test::Fail;

// The bytes of a net with one receiver, at node 1.
fn bytes_of(heap: Global, nodes: u8, links: &[(u8, u8)]) -> Result<Vec<u8>, AllocError>
    requires { length links.now < 256 }
{
    let mut bytes = Vec::new(heap);
    bytes.extend_from_slice(&[1, 0, nodes, 0, links.len() as u8])?;
    for (from, to) in links {
        bytes.extend_from_slice(&[0, *from, 0, *to])?;
    }
    bytes.extend_from_slice(&[1, 1, 0, 1])?;
    Ok(bytes)
}

fn find(
    heap: Global,
    nodes: u8,
    links: &[(u8, u8)],
    h: u8,
    receiver: u16,
) -> Result<Result<Found, Refusal>, Fail>
    requires { length links.now < 256 }
{
    let bytes = bytes_of(heap, nodes, links)?;
    let Ok(net) = network::read(heap, &bytes) else {
        return Err(Fail::new("not a net"));
    };
    let adjacency = Adjacency::of(heap, &net.network)?;
    Ok(paths_or_cut(heap, &adjacency, receiver, h))
}

fn check_paths(
    rt: &impl Abort,
    found: Result<Found, Refusal>,
    wanted: &[&[u16]],
) -> Result<(), Fail> {
    let Ok(Found::Paths(paths)) = found else {
        return Err(Fail::new("no paths"));
    };
    assert_eq!(rt; paths.len(), wanted.len());
    for (path, links) in paths.iter().zip(wanted.iter()) {
        assert_eq!(rt; path.as_slice(), *links);
    }
    Ok(())
}

fn check_cut(rt: &impl Abort, found: Result<Found, Refusal>, wanted: &[u16]) -> Result<(), Fail> {
    let Ok(Found::Cut(flags)) = found else {
        return Err(Fail::new("no cut"));
    };
    for node in 0..256u16 {
        assert_eq!(rt; flags[node as usize], wanted.contains(&node));
    }
    Ok(())
}

const NINE: [(u8, u8); 9] = [
    (0, 1),
    (0, 2),
    (1, 3),
    (1, 5),
    (2, 3),
    (2, 6),
    (3, 4),
    (4, 5),
    (4, 6),
];

#[test]
fn nine_links(rt: HostRuntime) -> Result<(), Fail> {
    let heap = rt.alloc();
    check_paths(&rt, find(heap, 7, &NINE, 2, 5)?, &[&[0, 3], &[1, 4, 6, 7]])?;
    check_paths(&rt, find(heap, 7, &NINE, 2, 6)?, &[&[0, 2, 6, 8], &[1, 5]])?;
    check_cut(&rt, find(heap, 7, &NINE, 3, 5)?, &[0])
}

// The second path goes back along link 1, which the first one took.
#[test]
fn step_back(rt: HostRuntime) -> Result<(), Fail> {
    let heap = rt.alloc();
    let links = [(0, 2), (2, 1), (0, 4), (4, 1), (1, 3), (2, 5), (5, 3)];
    check_paths(&rt, find(heap, 6, &links, 2, 3)?, &[&[0, 5, 6], &[2, 3, 4]])?;
    let links = [(0, 2), (0, 4), (2, 1), (4, 1), (1, 3)];
    check_cut(&rt, find(heap, 5, &links, 2, 3)?, &[0, 1, 2, 4])
}

#[test]
fn order_of_steps(rt: HostRuntime) -> Result<(), Fail> {
    let heap = rt.alloc();
    // At node 3 unused links come before used ones.
    let links = [
        (0, 1),
        (0, 2),
        (1, 3),
        (2, 3),
        (3, 7),
        (1, 4),
        (4, 7),
        (3, 5),
        (5, 6),
        (6, 7),
    ];
    check_paths(
        &rt,
        find(heap, 8, &links, 2, 7)?,
        &[&[0, 2, 4], &[1, 3, 7, 8, 9]],
    )?;
    // At node 4 used links come by rising number.
    let links = [
        (0, 1),
        (0, 2),
        (0, 3),
        (1, 4),
        (2, 4),
        (3, 4),
        (4, 9),
        (4, 9),
        (1, 5),
        (5, 6),
        (6, 9),
        (2, 7),
        (7, 8),
        (8, 9),
    ];
    check_paths(
        &rt,
        find(heap, 10, &links, 3, 9)?,
        &[&[0, 8, 9, 10], &[1, 4, 6], &[2, 5, 7]],
    )
}

#[test]
fn order_of_nodes_and_paths(rt: HostRuntime) -> Result<(), Fail> {
    let heap = rt.alloc();
    // First in, first out: node 2 was reached before node 1.
    let links = [(0, 2), (0, 1), (1, 3), (2, 3)];
    check_paths(&rt, find(heap, 4, &links, 1, 3)?, &[&[0, 3]])?;
    // Paths come by their first links, not in the order in which they were found.
    let links = [(0, 2), (0, 1), (2, 1)];
    check_paths(&rt, find(heap, 3, &links, 2, 1)?, &[&[0, 2], &[1]])
}

#[test]
fn smallest(rt: HostRuntime) -> Result<(), Fail> {
    let heap = rt.alloc();
    check_paths(&rt, find(heap, 2, &[(0, 1)], 1, 1)?, &[&[0]])?;
    check_paths(&rt, find(heap, 2, &[(0, 1), (0, 1)], 2, 1)?, &[&[0], &[1]])?;
    // No link comes into node 2.
    check_cut(&rt, find(heap, 3, &[(0, 1)], 1, 2)?, &[0, 1])
}

#[test]
fn no_receiver(rt: HostRuntime) -> Result<(), Fail> {
    let heap = rt.alloc();
    for node in [0, 2, 256] {
        let found = find(heap, 2, &[(0, 1)], 1, node)?;
        assert!(rt; matches!(found, Err(Refusal::NoReceiver)));
    }
    Ok(())
}

// Nodes that can be receivers are found without a refusal of their own.
#[test]
fn found_for_a_node(rt: HostRuntime) -> Result<(), Fail> {
    let heap = rt.alloc();
    let bytes = bytes_of(heap, 3, &[(0, 1)])?;
    let Ok(net) = network::read(heap, &bytes) else {
        return Err(Fail::new("not a net"));
    };
    let adjacency = Adjacency::of(heap, &net.network)?;
    for node in 1..net.network.nodes {
        match flow::find(heap, &adjacency, node, 1)? {
            Found::Paths(paths) => {
                assert_eq!(rt; node, 1);
                assert_eq!(rt; paths.len(), 1);
                assert_eq!(rt; paths[0].as_slice(), [0].as_slice());
            }
            Found::Cut(_) => assert_eq!(rt; node, 2),
        }
    }
    Ok(())
}
