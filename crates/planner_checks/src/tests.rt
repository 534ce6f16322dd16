// Nets with their plans as the reference program tells them: python3 tools/reference/vectors.py.
ghost use Rattle.std.specs.Prelude.{◌≡◌, ◌<◌, length};

use std::alloc::{AllocError, Global};
use std::test::Fail;
use wire::Fitted;

// The bytes of a net and of its plan, two hexadecimal digits to a byte.
struct Case {
    net: &'static str,
    plan: &'static str,
}

const CASES: [Case; 15] = [
    // nine lines, h 2
    Case {
        net: "0100070009000000010000000200010003000100050002000300020006000300040004000500040006020200050006",
        plan: "020100020100000200010001010001010001010001010002010100010100010100030007010001010008000501010001",
    },
    // nine lines, h 3
    Case {
        net: "0100070009000000010000000200010003000100050002000300020006000300040004000500040006030200050006",
        plan: "020200050000000000000000000000000000000000000000000000000000000000000001",
    },
    // nine lines, h 1
    Case {
        net: "0100070009000000010000000200010003000100050002000300020006000300040004000500040006010200050006",
        plan: "020100010100010100010000010100010000010100020000000100000100000301000501",
    },
    // one line
    Case {
        net: "01000200010000000101010001",
        plan: "0201000101000001",
    },
    // two lines
    Case {
        net: "0100020002000000010000000102010001",
        plan: "020100020100000200010000000101000001",
    },
    // three lines, the last on no way
    Case {
        net: "010002000300000001000000010000000102010001",
        plan: "02010002010000020001000200000000000101000001",
    },
    // a line beside the ways of a listener, not 0
    Case {
        net: "0100100013000000010000000200000003000100050001000b0002000400030006000400070005000700060008000700090008000a0009000b0009000f000a000b000b000c000c000d000d000e000e000f0202000b000f",
        plan: "02010002010000020001000200010001010001010001010001010001010001010001010002010100010100010100010100010100030000010001010001010001010004000c01000101000d001201010001",
    },
    // a listener that no line reaches
    Case {
        net: "01000300010000000101010002",
        plan: "020200020000000000000000000000000000000000000000000000000000000000000003",
    },
    // no line at all
    Case {
        net: "010002000001010001",
        plan: "020200010000000000000000000000000000000000000000000000000000000000000001",
    },
    // t is 2 at the source
    Case {
        net: "01000400060000000200000001000000030000000300030001000100020203000100020003",
        plan: "020100020100000201010002020100020001000201000002010000010004f6f6f7f60000000501000101000200038d8d0001",
    },
    // t is 2 at an inner place
    Case {
        net: "010005000800000002000000020002000400000001000000010002000300010003000300040203000100030004",
        plan: "02010002010000020001000201000002010100020001000201020002010000020100000300040101000100050006f6f7f6f60002000701008d8d",
    },
    // a factor by two steps
    Case {
        net: "010008000b000000040004000500000006000600070004000100000003000600010003000500030002000000020003000702040001000200050007",
        plan: "02010002010000010100020101000101000101000201030001010001010001010002000100010100040006010001010008000901030001000100070100f6f60003000a8c8d8d8d",
    },
    // lines onward before lines back
    Case {
        net: "01000a000e000000080008000900000004000400050008000300030007000000010007000600040002000100090002000600090006000900050005000603010006",
        plan: "0201000301000000010100030001000001000001000001000003000001000100000101000101000101000201000002000100020001000b000a000d010000000100000001",
    },
    // lines back by rising number
    Case {
        net: "010007000b000000010000000400000003000100020003000200040002000100060002000500020005000400060006000503010005",
        plan: "02010003010000000300010000030000010001000001010001010001010003000001000300010000010000020100000a00070008010000000100000001",
    },
    // t is 3
    Case {
        net: "010008000c000000040000000600040006000000010006000100060002000000020000000500010003000200030005000700020007020500010002000300060007",
        plan: "02010002010000020101000101000202010002010000020100000203010002000100020100000200010001010002000100040003f6f6f7f6000500068d8d8c8d00080009010103020002000101000101000b000af6f60001",
    },
];

// The bytes of the plan of a net, by its bytes.
fn plan_of(heap: Global, net: &[u8]) -> Result<Vec<u8>, Fail> {
    let net = network::read(heap, net)?;
    let plan = planner::make_plan(heap, &net)?;
    let fitted = Fitted {
        net: &net,
        plan: &plan,
    };
    Ok(wire::write(heap, &fitted)?)
}

#[test]
fn plans(rt: HostRuntime) -> Result<(), Fail> {
    let heap = rt.alloc();
    for case in &CASES {
        let net = hex::decode(heap, case.net)?;
        assert_eq!(rt;
            plan_of(heap, &net)?,
            hex::decode(heap, case.plan)?,
            "{}",
            case.net
        );
    }
    Ok(())
}

// A net of the largest size that is made by a rule: into each place `rate` lines, from places before it. The last place
// listens, and so does each one that lies `step` before a listener, `count` in all.
#[derive(Clone, Copy)]
struct Rule {
    places: u16,
    rate: u8,
    count: u8,
    step: u8,
    // how long the bytes of the net and of its plan are, and their sums
    net: (usize, u64),
    plan: (usize, u64),
}

const RULES: [Rule; 3] = [
    Rule {
        places: 33,
        rate: 32,
        count: 32,
        step: 1,
        net: (4167, 0x4c70feab88ff7cf9),
        plan: (69634, 0x80d88d036e51dd9a),
    },
    Rule {
        places: 65,
        rate: 16,
        count: 64,
        step: 1,
        net: (4231, 0xc20934fd488655ba),
        plan: (36866, 0x3ea408f7262565cd),
    },
    Rule {
        places: 256,
        rate: 4,
        count: 64,
        step: 4,
        net: (4215, 0x8085a67c34ab97b0),
        plan: (7658, 0x37b04ddd1a3b7c93),
    },
];

// How long, and FNV-1a.
fn sum(bytes: &[u8]) -> (usize, u64)
    ensures { result.0 ≡ length bytes.now }
{
    let mut value: u64 = 0xcbf29ce484222325;
    for byte in bytes {
        value = (value ^ u64::from(*byte)).wrapping_mul(0x100000001b3);
    }
    (bytes.len(), value)
}

// The beginning of line j of those into a place.
fn from(place: u16, j: u8) -> u16
    requires { 0 < place }
    ensures { result < place }
{
    let back = u32::from(j) * u32::from(place % 5 + 1) % u32::from(place);
    place - 1 - back as u16
}

fn net_of(heap: Global, rule: Rule) -> Result<Vec<u8>, AllocError> {
    let mut bytes = Vec::new(heap);
    bytes.push(1)?;
    bytes.extend_from_slice(&rule.places.to_be_bytes())?;
    bytes.extend_from_slice(
        &rule
            .places
            .wrapping_sub(1)
            .wrapping_mul(u16::from(rule.rate))
            .to_be_bytes(),
    )?;
    for place in 1..rule.places {
        for j in 0..rule.rate {
            bytes.extend_from_slice(&from(place, j).to_be_bytes())?;
            bytes.extend_from_slice(&place.to_be_bytes())?;
        }
    }
    bytes.push(rule.rate)?;
    bytes.push(rule.count)?;
    for i in (0..rule.count).rev() {
        let before = u16::from(rule.step)
            .wrapping_mul(u16::from(i))
            .wrapping_add(1);
        bytes.extend_from_slice(&rule.places.wrapping_sub(before).to_be_bytes())?;
    }
    Ok(bytes)
}

#[test]
fn largest(rt: HostRuntime) -> Result<(), Fail> {
    let heap = rt.alloc();
    for rule in &RULES {
        let net = net_of(heap, *rule)?;
        assert_eq!(rt; sum(&net), rule.net);
        assert_eq!(rt; sum(&plan_of(heap, &net)?), rule.plan);
    }
    Ok(())
}
