// Sequences of packets at nodes of the net of nine lines, with the answers worked out by hand from the rules.
ghost use Rattle.std.specs.Prelude.{◌≤◌};

use console::Program;
use gf_bytes::PACKET_LENGTH;
use relay_console::Intake;
use relay_node::{Node, NodeError, PACKET_RECORD_LENGTH, Refusal, write_record};
use std::alloc::Global;
use std::process::Abort;
use std::test::Fail;
use wire::Fitted;

// 0-1, 0-2, 1-3, 1-5, 2-3, 2-6, 3-4, 4-5, 4-6 at rate 2; listeners 5 and 6.
const NET: &[u8; 47] =
    b"\x01\x00\x07\x00\x09\x00\x00\x00\x01\x00\x00\x00\x02\x00\x01\x00\x03\x00\x01\x00\x05\x00\x02\x00\x03\x00\x02\x00\x06\x00\x03\x00\x04\x00\x04\x00\x05\x00\x04\x00\x06\x02\x02\x00\x05\x00\x06";

// Its plan: line 6, from 3 to 4, carries the sum of both packets.
const PLAN: &[u8; 48] =
    b"\x02\x01\x00\x02\x01\x00\x00\x02\x00\x01\x00\x01\x01\x00\x01\x01\x00\x01\x01\x00\x01\x01\x00\x02\x01\x01\x00\x01\x01\x00\x01\x01\x00\x03\x00\x07\x01\x00\x01\x01\x00\x08\x00\x05\x01\x01\x00\x01";

// A plan with a cut.
const CUT: &[u8; 36] =
    b"\x02\x02\x00\x05\x00\x00\x00\x00\x00\x00\x00\x00\x00\x00\x00\x00\x00\x00\x00\x00\x00\x00\x00\x00\x00\x00\x00\x00\x00\x00\x00\x00\x00\x00\x00\x01";

// The link, the round, and what comes of a packet: how many rounds end, or 10 and the number of the refusal.
type Step = (u16, u32, u8);

// The links 2 and 4 come in at place 3.
const IN_ORDER: [Step; 6] = [
    (2, 0, 0),
    (4, 0, 1),
    (4, 1, 0),
    (2, 1, 1),
    (2, 2, 0),
    (4, 2, 1),
];

const REVERSED: [Step; 6] = [
    (4, 2, 0),
    (2, 2, 0),
    (4, 1, 0),
    (2, 1, 0),
    (4, 0, 0),
    (2, 0, 3),
];

const TWO_AT_ONCE: [Step; 6] = [
    (2, 1, 0),
    (4, 1, 0),
    (2, 0, 0),
    (4, 0, 2),
    (2, 2, 0),
    (4, 2, 1),
];

// A gap: round 1 waits for link 2, so round 2 waits too.
const GAP: [Step; 6] = [
    (4, 1, 0),
    (4, 2, 0),
    (2, 2, 0),
    (2, 0, 0),
    (4, 0, 1),
    (2, 1, 2),
];

const REFUSED: [Step; 17] = [
    // a line that goes out here, one that isn't there, and the highest numbers: 6 before all else
    (6, 0, 16),
    (9, 0, 16),
    (65535, 4294967295, 16),
    // three rounds early, and two
    (2, 3, 18),
    (2, 4294967295, 18),
    (2, 2, 0),
    // twice
    (2, 2, 17),
    (2, 0, 0),
    (2, 0, 17),
    (4, 3, 18),
    (4, 0, 1),
    // over
    (2, 0, 17),
    (4, 0, 17),
    (3, 0, 16),
    // now two rounds early
    (4, 3, 0),
    (4, 4, 18),
    (4, 3, 17),
];

// Link 6 alone comes in at place 4.
const ONE_LINK: [Step; 7] = [
    (6, 0, 1),
    (6, 1, 1),
    (6, 3, 0),
    (6, 5, 18),
    (6, 4, 0),
    (6, 2, 3),
    (6, 4, 17),
];

// From round 2^32 - 2 on; behind the last round all are over.
const LAST: [Step; 9] = [
    (2, 4294967293, 17),
    (2, 4294967295, 0),
    (2, 4294967294, 0),
    (4, 4294967294, 1),
    (2, 4294967294, 17),
    (4, 4294967295, 1),
    (2, 4294967295, 17),
    (4, 4294967295, 17),
    (4, 0, 17),
];

// The source takes messages of two packets: the round, how many bytes, and what comes of it.
const MESSAGES: [(u32, usize, u8); 9] = [
    (0, 2048, 1),
    (0, 2048, 17),
    (2, 2048, 0),
    (4, 2048, 18),
    (3, 2048, 0),
    (1, 2047, 11),
    (1, 3072, 11),
    (1, 0, 11),
    (1, 2048, 3),
];

fn node_by(
    heap: Global,
    plan: &[u8],
    place: u16,
    listens: bool,
) -> Result<Result<Node, NodeError>, Fail> {
    let net = network::read(heap, NET).map_err(|_| Fail::new("not a net"))?;
    let plan = wire::read(heap, &net, plan).map_err(|_| Fail::new("not a plan"))?;
    let fitted = Fitted {
        net: &net,
        plan: &plan,
    };
    if listens {
        return Ok(Node::receiver(heap, &fitted, place));
    }
    Ok(Node::new(heap, &fitted, place))
}

fn node_at(heap: Global, place: u16) -> Result<Node, Fail> {
    Ok(node_by(heap, PLAN, place, false)??)
}

fn refusal_at(heap: Global, plan: &[u8], place: u16, listens: bool) -> Result<u8, Fail> {
    Ok(node_by(heap, plan, place, listens)?.map_or_else(|e| e.number(), |_| 0))
}

fn told(taken: Result<u8, Refusal>) -> u8 {
    taken.unwrap_or_else(|refusal| 10u8.saturating_add(refusal.number()))
}

// The node goes on in round 2^32 - 2.
fn age(node: &mut Node) {
    node.slots.round = node.slots.round.max(4294967294);
}

fn check_steps(rt: &impl Abort, mut node: Node, steps: &[Step]) {
    let packet = [7u8; PACKET_LENGTH];
    for (link, round, wanted) in steps {
        let before = node.slots.round;
        assert_eq!(rt; told(node.take(*link, *round, &packet)), *wanted);
        let ended = if *wanted < 10 { u64::from(*wanted) } else { 0 };
        assert_eq!(rt; node.slots.round, before.saturating_add(ended));
    }
}

#[test]
fn rounds(rt: HostRuntime) -> Result<(), Fail> {
    let heap = rt.alloc();
    check_steps(&rt, node_at(heap, 3)?, &IN_ORDER);
    check_steps(&rt, node_at(heap, 3)?, &REVERSED);
    check_steps(&rt, node_at(heap, 3)?, &TWO_AT_ONCE);
    check_steps(&rt, node_at(heap, 3)?, &GAP);
    check_steps(&rt, node_at(heap, 3)?, &REFUSED);
    check_steps(&rt, node_at(heap, 4)?, &ONE_LINK);
    let mut old = node_at(heap, 3)?;
    age(&mut old);
    check_steps(&rt, old, &LAST);
    Ok(())
}

// Messages at the source; a packet there, and a message elsewhere.
#[test]
fn source(rt: HostRuntime) -> Result<(), Fail> {
    let heap = rt.alloc();
    let mut node = node_at(heap, 0)?;
    for (round, length, wanted) in &MESSAGES {
        let bytes = vec![in heap; 1u8; *length]?;
        assert_eq!(rt; told(node.take_message(*round, &bytes)), *wanted);
    }
    assert_eq!(rt; told(node.take(0, 4, &[0; PACKET_LENGTH])), 16);
    let bytes = vec![in heap; 1u8; 2048]?;
    assert_eq!(rt; told(node_at(heap, 3)?.take_message(0, &bytes)), 11);
    Ok(())
}

// Which places have a node, and which a listener.
#[test]
fn places(rt: HostRuntime) -> Result<(), Fail> {
    let heap = rt.alloc();
    assert_eq!(rt; refusal_at(heap, PLAN, 6, false)?, 0);
    assert_eq!(rt; refusal_at(heap, PLAN, 7, false)?, 2);
    assert_eq!(rt; refusal_at(heap, PLAN, 65535, true)?, 2);
    assert_eq!(rt; refusal_at(heap, PLAN, 6, true)?, 0);
    assert_eq!(rt; refusal_at(heap, PLAN, 4, true)?, 9);
    assert_eq!(rt; refusal_at(heap, CUT, 5, true)?, 9);
    assert_eq!(rt; refusal_at(heap, CUT, 0, false)?, 9);
    assert_eq!(rt; refusal_at(heap, CUT, 7, false)?, 2);
    Ok(())
}

fn put(rt: &impl Abort, node: &mut Node, link: u16, round: u32, byte: u8, wanted: u8) {
    assert_eq!(rt;
        told(node.take(link, round, &[byte; PACKET_LENGTH])),
        wanted
    );
}

// Place 3 sends the sum of what came in for each round: a packet that is refused is not in it. 5 + 9 is 12, 3 + 6 is 5.
#[test]
fn sums(rt: HostRuntime) -> Result<(), Fail> {
    let mut node = node_at(rt.alloc(), 3)?;
    put(&rt, &mut node, 2, 1, 3, 0);
    put(&rt, &mut node, 2, 0, 5, 0);
    put(&rt, &mut node, 2, 0, 77, 17);
    put(&rt, &mut node, 4, 1, 6, 0);
    put(&rt, &mut node, 5, 0, 1, 16);
    put(&rt, &mut node, 4, 0, 9, 2);
    assert_eq!(rt; node.outs.len(), 1);
    if node.outs.len() > 0 {
        assert_eq!(rt; node.outs[0].link, 6);
        assert_eq!(rt; node.mix(0, 0)[0], 12);
        assert_eq!(rt; node.mix(1, 0)[1023], 5);
    }
    Ok(())
}

// Listener 5 has the first packet over line 3, and the sum over line 7: 12 + 5 is 9.
#[test]
fn listener(rt: HostRuntime) -> Result<(), Fail> {
    let mut node = node_at(rt.alloc(), 5)?;
    put(&rt, &mut node, 7, 0, 12, 0);
    put(&rt, &mut node, 3, 0, 5, 1);
    assert_eq!(rt; node.current.len(), 2);
    if node.current.len() == 2 {
        assert_eq!(rt; node.read(0, 0)[0], 5);
        assert_eq!(rt; node.read(0, 1)[1023], 9);
    }
    Ok(())
}

// A record by its kind and length, and the bytes of one that is written.
#[test]
fn records(rt: HostRuntime) -> Result<(), Fail> {
    let heap = rt.alloc();
    let mut bytes = [0u8; PACKET_RECORD_LENGTH];
    write_record(&mut bytes, 260, 16909060, &[9; PACKET_LENGTH]);
    assert_eq!(rt; &bytes[0..8], [3, 1, 4, 1, 2, 3, 4, 9].as_slice());
    write_record(&mut bytes, 4, 0, &[9; PACKET_LENGTH]);
    let mut node = node_at(heap, 3)?;
    assert_eq!(rt; told(node.take_record(&bytes[0..1030])), 11);
    assert_eq!(rt; told(node.take_record(&[])), 11);
    assert_eq!(rt; told(node.take_record(&bytes)), 0);
    assert_eq!(rt; told(node.take_record(&bytes)), 17);
    bytes[0] = 4;
    assert_eq!(rt; told(node.take_record(&bytes)), 11);
    Ok(())
}

fn taken(rt: &HostRuntime, intake: &mut Intake, input: &mut &[u8]) -> Result<Option<u8>, Fail> {
    intake
        .take_next(Program { rt, name: "test" }, input)
        .map_err(|_| Fail::new("stopped"))
}

// A packet, the same once more, and a record that is cut short.
#[test]
fn intake(rt: HostRuntime) -> Result<(), Fail> {
    let heap = rt.alloc();
    let mut record = [0u8; PACKET_RECORD_LENGTH];
    write_record(&mut record, 6, 0, &[9; PACKET_LENGTH]);
    let mut stream = Vec::new(heap);
    stream.extend_from_slice(&record)?;
    stream.extend_from_slice(&record)?;
    stream.extend_from_slice(&record[..5])?;
    let mut input = stream.as_slice();
    let mut intake = Intake::new(heap, node_at(heap, 4)?)?;
    assert_eq!(rt; taken(&rt, &mut intake, &mut input)?, Some(1));
    assert_eq!(rt; intake.refused, 0);
    assert_eq!(rt; taken(&rt, &mut intake, &mut input)?, Some(0));
    assert_eq!(rt; intake.refused, 1);
    assert_eq!(rt; taken(&rt, &mut intake, &mut input)?, None);
    assert_eq!(rt; intake.refused, 2);
    assert_eq!(rt; intake.node.slots.round, 1);
    Ok(())
}
