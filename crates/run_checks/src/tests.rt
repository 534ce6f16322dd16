// Nets of several kinds, played with packets delivered in several orders: every listener must read every message, and nothing may be refused.
// Nets and plans are those of the reference program: python3 tools/reference/vectors.py.

use gf_bytes::{PACKET_LENGTH, Packet};
use network::Multicast;
use relay_node::Node;
use std::alloc::Global;
use std::process::Abort;
use std::test::Fail;
use wire::Fitted;

struct Case {
    net: &'static [u8],
    plan: &'static [u8],
}

const CASES: [Case; 8] = [
    // nine lines, h 2
    Case {
        net: b"\x01\x00\x07\x00\x09\x00\x00\x00\x01\x00\x00\x00\x02\x00\x01\x00\x03\x00\x01\x00\x05\x00\x02\x00\x03\x00\x02\x00\x06\x00\x03\x00\x04\x00\x04\x00\x05\x00\x04\x00\x06\x02\x02\x00\x05\x00\x06",
        plan: b"\x02\x01\x00\x02\x01\x00\x00\x02\x00\x01\x00\x01\x01\x00\x01\x01\x00\x01\x01\x00\x01\x01\x00\x02\x01\x01\x00\x01\x01\x00\x01\x01\x00\x03\x00\x07\x01\x00\x01\x01\x00\x08\x00\x05\x01\x01\x00\x01",
    },
    // three lines, the last on no way
    Case {
        net: b"\x01\x00\x02\x00\x03\x00\x00\x00\x01\x00\x00\x00\x01\x00\x00\x00\x01\x02\x01\x00\x01",
        plan: b"\x02\x01\x00\x02\x01\x00\x00\x02\x00\x01\x00\x02\x00\x00\x00\x00\x00\x01\x01\x00\x00\x01",
    },
    // a line beside the ways of a listener, not 0
    Case {
        net: b"\x01\x00\x10\x00\x13\x00\x00\x00\x01\x00\x00\x00\x02\x00\x00\x00\x03\x00\x01\x00\x05\x00\x01\x00\x0b\x00\x02\x00\x04\x00\x03\x00\x06\x00\x04\x00\x07\x00\x05\x00\x07\x00\x06\x00\x08\x00\x07\x00\x09\x00\x08\x00\x0a\x00\x09\x00\x0b\x00\x09\x00\x0f\x00\x0a\x00\x0b\x00\x0b\x00\x0c\x00\x0c\x00\x0d\x00\x0d\x00\x0e\x00\x0e\x00\x0f\x02\x02\x00\x0b\x00\x0f",
        plan: b"\x02\x01\x00\x02\x01\x00\x00\x02\x00\x01\x00\x02\x00\x01\x00\x01\x01\x00\x01\x01\x00\x01\x01\x00\x01\x01\x00\x01\x01\x00\x01\x01\x00\x01\x01\x00\x02\x01\x01\x00\x01\x01\x00\x01\x01\x00\x01\x01\x00\x01\x01\x00\x03\x00\x00\x01\x00\x01\x01\x00\x01\x01\x00\x01\x01\x00\x04\x00\x0c\x01\x00\x01\x01\x00\x0d\x00\x12\x01\x01\x00\x01",
    },
    // t is 2 at the source
    Case {
        net: b"\x01\x00\x04\x00\x06\x00\x00\x00\x02\x00\x00\x00\x01\x00\x00\x00\x03\x00\x00\x00\x03\x00\x03\x00\x01\x00\x01\x00\x02\x02\x03\x00\x01\x00\x02\x00\x03",
        plan: b"\x02\x01\x00\x02\x01\x00\x00\x02\x01\x01\x00\x02\x02\x01\x00\x02\x00\x01\x00\x02\x01\x00\x00\x02\x01\x00\x00\x01\x00\x04\xf6\xf6\xf7\xf6\x00\x00\x00\x05\x01\x00\x01\x01\x00\x02\x00\x03\x8d\x8d\x00\x01",
    },
    // t is 2 at an inner place
    Case {
        net: b"\x01\x00\x05\x00\x08\x00\x00\x00\x02\x00\x00\x00\x02\x00\x02\x00\x04\x00\x00\x00\x01\x00\x00\x00\x01\x00\x02\x00\x03\x00\x01\x00\x03\x00\x03\x00\x04\x02\x03\x00\x01\x00\x03\x00\x04",
        plan: b"\x02\x01\x00\x02\x01\x00\x00\x02\x00\x01\x00\x02\x01\x00\x00\x02\x01\x01\x00\x02\x00\x01\x00\x02\x01\x02\x00\x02\x01\x00\x00\x02\x01\x00\x00\x03\x00\x04\x01\x01\x00\x01\x00\x05\x00\x06\xf6\xf7\xf6\xf6\x00\x02\x00\x07\x01\x00\x8d\x8d",
    },
    // a factor by two steps
    Case {
        net: b"\x01\x00\x08\x00\x0b\x00\x00\x00\x04\x00\x04\x00\x05\x00\x00\x00\x06\x00\x06\x00\x07\x00\x04\x00\x01\x00\x00\x00\x03\x00\x06\x00\x01\x00\x03\x00\x05\x00\x03\x00\x02\x00\x00\x00\x02\x00\x03\x00\x07\x02\x04\x00\x01\x00\x02\x00\x05\x00\x07",
        plan: b"\x02\x01\x00\x02\x01\x00\x00\x01\x01\x00\x02\x01\x01\x00\x01\x01\x00\x01\x01\x00\x02\x01\x03\x00\x01\x01\x00\x01\x01\x00\x01\x01\x00\x02\x00\x01\x00\x01\x01\x00\x04\x00\x06\x01\x00\x01\x01\x00\x08\x00\x09\x01\x03\x00\x01\x00\x01\x00\x07\x01\x00\xf6\xf6\x00\x03\x00\x0a\x8c\x8d\x8d\x8d",
    },
    // lines onward before lines back
    Case {
        net: b"\x01\x00\x0a\x00\x0e\x00\x00\x00\x08\x00\x08\x00\x09\x00\x00\x00\x04\x00\x04\x00\x05\x00\x08\x00\x03\x00\x03\x00\x07\x00\x00\x00\x01\x00\x07\x00\x06\x00\x04\x00\x02\x00\x01\x00\x09\x00\x02\x00\x06\x00\x09\x00\x06\x00\x09\x00\x05\x00\x05\x00\x06\x03\x01\x00\x06",
        plan: b"\x02\x01\x00\x03\x01\x00\x00\x00\x01\x01\x00\x03\x00\x01\x00\x00\x01\x00\x00\x01\x00\x00\x01\x00\x00\x03\x00\x00\x01\x00\x01\x00\x00\x01\x01\x00\x01\x01\x00\x01\x01\x00\x02\x01\x00\x00\x02\x00\x01\x00\x02\x00\x01\x00\x0b\x00\x0a\x00\x0d\x01\x00\x00\x00\x01\x00\x00\x00\x01",
    },
    // t is 3
    Case {
        net: b"\x01\x00\x08\x00\x0c\x00\x00\x00\x04\x00\x00\x00\x06\x00\x04\x00\x06\x00\x00\x00\x01\x00\x06\x00\x01\x00\x06\x00\x02\x00\x00\x00\x02\x00\x00\x00\x05\x00\x01\x00\x03\x00\x02\x00\x03\x00\x05\x00\x07\x00\x02\x00\x07\x02\x05\x00\x01\x00\x02\x00\x03\x00\x06\x00\x07",
        plan: b"\x02\x01\x00\x02\x01\x00\x00\x02\x01\x01\x00\x01\x01\x00\x02\x02\x01\x00\x02\x01\x00\x00\x02\x01\x00\x00\x02\x03\x01\x00\x02\x00\x01\x00\x02\x01\x00\x00\x02\x00\x01\x00\x01\x01\x00\x02\x00\x01\x00\x04\x00\x03\xf6\xf6\xf7\xf6\x00\x05\x00\x06\x8d\x8d\x8c\x8d\x00\x08\x00\x09\x01\x01\x03\x02\x00\x02\x00\x01\x01\x00\x01\x01\x00\x0b\x00\x0a\xf6\xf6\x00\x01",
    },
];

const MESSAGES: u64 = 5;

#[derive(Clone, Copy)]
enum Order {
    Oldest,
    Newest,
    Shuffled(u64),
}

// A packet under way.
#[derive(Drop)]
struct Flying {
    link: u16,
    round: u64,
    packet: Packet,
}

// A net at work.
#[derive(Drop)]
struct Scene {
    nodes: Vec<Node>,
    flying: Vec<Flying>,
    begun: u64,
    // for each place, how many messages were read there that are the right ones
    heard: Vec<u64>,
}

// Byte i of packet j of message r.
fn content(r: u64, j: usize, i: usize) -> u8 {
    let packet = (j as u64).wrapping_mul(31);
    let mixed = r
        .wrapping_mul(97)
        .wrapping_add(packet)
        .wrapping_add(i as u64 / 3);
    (mixed % 251) as u8
}

fn message(heap: Global, r: u64, rate: u8) -> Result<Vec<u8>, Fail> {
    let mut bytes = Vec::new(heap);
    for j in 0..rate as usize {
        for i in 0..PACKET_LENGTH {
            bytes.push(content(r, j, i))?;
        }
    }
    Ok(bytes)
}

// A node for each place, at which nothing has come in.
fn set_up(heap: Global, fitted: &Fitted) -> Result<Scene, Fail> {
    let mut nodes = Vec::new(heap);
    for p in 0..fitted.net.network.nodes {
        nodes.push(Node::new(heap, fitted, p)?)?;
    }
    let heard = vec![in heap; 0u64; nodes.len()]?;
    Ok(Scene {
        nodes,
        flying: Vec::new(heap),
        begun: 0,
        heard,
    })
}

// Whether what a receiver reads for a round is the message of that round.
fn is_heard(node: &Node, round: u64) -> bool {
    for j in 0..node.current.len() {
        let packet = node.read(round, j);
        for (i, byte) in packet.iter().enumerate() {
            if *byte != content(round, j, i) {
                return false;
            }
        }
    }
    node.current.len() > 0
}

impl Scene {
    // What a node sends and reads for the rounds that have just ended.
    fn go_on(&mut self, place: usize, ended: u8) -> Result<(), Fail> {
        let node = self.nodes.get(place).ok_or("no such place")?;
        let heard = self.heard.get_mut(place).ok_or("no such place")?;
        let first = node.slots.round.saturating_sub(u64::from(ended));
        for round in first..node.slots.round {
            for (k, out) in node.outs.iter().enumerate() {
                self.flying.push(Flying {
                    link: out.link,
                    round,
                    packet: node.mix(round, k),
                })?;
            }
            if is_heard(node, round) {
                *heard = heard.saturating_add(1);
            }
        }
        Ok(())
    }

    // The source takes in the next message.
    fn begin(&mut self, bytes: &[u8]) -> Result<(), Fail> {
        let source = self.nodes.first_mut().ok_or("no source")?;
        let ended = source.take_message((self.begun % 4294967296) as u32, bytes)?;
        self.begun = self.begun.saturating_add(1);
        self.go_on(0, ended)
    }

    // A packet arrives.
    fn arrive(&mut self, net: &Multicast, which: usize) -> Result<(), Fail> {
        if which >= self.flying.len() {
            return Err(Fail::new("nothing under way"));
        }
        let packet = self.flying.remove(which);
        let link = net
            .network
            .links
            .get(packet.link as usize)
            .ok_or("no such line")?;
        let place = link.to as usize;
        let node = self.nodes.get_mut(place).ok_or("no such place")?;
        let ended = node.take(
            packet.link,
            (packet.round % 4294967296) as u32,
            &packet.packet,
        )?;
        self.go_on(place, ended)
    }

    // The source begins when each place that lines come into has ended the third round before.
    fn may_begin(&self) -> bool {
        for node in &self.nodes {
            if node.slots.ins.len() > 0 && self.begun >= node.slots.round.saturating_add(3) {
                return false;
            }
        }
        self.begun < MESSAGES
    }
}

// Which packet arrives next, of as many as are under way.
fn choose(order: Order, turn: u64, count: usize) -> usize {
    match order {
        Order::Oldest => 0,
        Order::Newest => count.saturating_sub(1),
        Order::Shuffled(seed) => {
            let drawn = turn.wrapping_mul(6364136223846793005).wrapping_add(seed);
            let mixed = (drawn >> 29) ^ drawn;
            if count == 0 {
                return 0;
            }
            (mixed.wrapping_mul(1442695040888963407) >> 33) as usize % count
        }
    }
}

fn check_net(rt: &impl Abort, heap: Global, case: &Case, order: Order) -> Result<(), Fail> {
    let net = network::read(heap, case.net).map_err(|_| Fail::new("not a net"))?;
    let plan = wire::read(heap, &net, case.plan).map_err(|_| Fail::new("not a plan"))?;
    let fitted = Fitted {
        net: &net,
        plan: &plan,
    };
    let mut scene = set_up(heap, &fitted)?;
    for turn in 0..10000u64 {
        if scene.may_begin() {
            let bytes = message(heap, scene.begun, net.rate)?;
            scene.begin(&bytes)?;
        } else if scene.flying.len() > 0 {
            let which = choose(order, turn, scene.flying.len());
            scene.arrive(&net, which)?;
        } else {
            break;
        }
    }
    assert_eq!(rt; scene.begun, MESSAGES);
    assert_eq!(rt; scene.flying.len(), 0);
    for p in net.receivers.iter() {
        assert_eq!(rt;
            *scene.heard.get(*p as usize).ok_or("no such place")?,
            MESSAGES
        );
    }
    Ok(())
}

fn check_all(rt: &impl Abort, heap: Global, order: Order) -> Result<(), Fail> {
    for case in &CASES {
        check_net(rt, heap, case, order)?;
    }
    Ok(())
}

#[test]
fn oldest_first(rt: HostRuntime) -> Result<(), Fail> {
    check_all(&rt, rt.alloc(), Order::Oldest)
}

#[test]
fn newest_first(rt: HostRuntime) -> Result<(), Fail> {
    check_all(&rt, rt.alloc(), Order::Newest)
}

#[test]
fn shuffled(rt: HostRuntime) -> Result<(), Fail> {
    for seed in 1..6u64 {
        check_all(&rt, rt.alloc(), Order::Shuffled(seed))?;
    }
    Ok(())
}
