// Plans for a net of nine lines and damaged plans, as the reference program judges them: python3 tools/reference/vectors.py.
ghost use Rattle.std.specs.Prelude.{◌≡◌, IfOk, vec_len};

use network::Multicast;
use std::alloc::{AllocError, Global};
use std::process::Abort;
use std::test::Fail;
use wire::{Fault, Fitted, ReadError};

// The net of nine lines but for its rate: 0-1, 0-2, 1-3, 1-5, 2-3, 2-6, 3-4, 4-5, 4-6; listeners 5 and 6.
const LINES: &[u8; 41] =
    b"\x01\x00\x07\x00\x09\x00\x00\x00\x01\x00\x00\x00\x02\x00\x01\x00\x03\x00\x01\x00\x05\x00\x02\x00\x03\x00\x02\x00\x06\x00\x03\x00\x04\x00\x04\x00\x05\x00\x04\x00\x06";

const LISTENERS: &[u8; 5] = b"\x02\x00\x05\x00\x06";

// Its plans at rates 2 and 3.
const SERVED: &[u8; 48] =
    b"\x02\x01\x00\x02\x01\x00\x00\x02\x00\x01\x00\x01\x01\x00\x01\x01\x00\x01\x01\x00\x01\x01\x00\x02\x01\x01\x00\x01\x01\x00\x01\x01\x00\x03\x00\x07\x01\x00\x01\x01\x00\x08\x00\x05\x01\x01\x00\x01";

const CUT: &[u8; 36] =
    b"\x02\x02\x00\x05\x00\x00\x00\x00\x00\x00\x00\x00\x00\x00\x00\x00\x00\x00\x00\x00\x00\x00\x00\x00\x00\x00\x00\x00\x00\x00\x00\x00\x00\x00\x00\x01";

// How many bytes there are of a plan, where other bytes are put, and these; the number of the fault, 0 for none, and the byte at which
// its item begins.
type Row = (usize, usize, &'static [u8], u8, usize);

const OF_SERVED: [Row; 61] = [
    // the plan itself
    (48, 0, &[], 0, 0),
    // line 0 has other factors
    (48, 4, &[0], 0, 0),
    // listener 5 has line 3 twice
    (48, 35, &[3], 0, 0),
    // rows of zeros
    (48, 36, &[0, 0, 0, 0], 0, 0),
    // cut short
    (0, 0, &[], 1, 0),
    (1, 0, &[], 1, 0),
    (2, 0, &[], 1, 2),
    (3, 0, &[], 1, 2),
    (4, 0, &[], 1, 2),
    (5, 0, &[], 1, 2),
    (6, 0, &[], 1, 6),
    (7, 0, &[], 1, 6),
    (8, 0, &[], 1, 6),
    (9, 0, &[], 1, 6),
    (10, 0, &[], 1, 10),
    (12, 0, &[], 1, 10),
    (13, 0, &[], 1, 13),
    (16, 0, &[], 1, 16),
    (19, 0, &[], 1, 19),
    (21, 0, &[], 1, 19),
    (22, 0, &[], 1, 22),
    (25, 0, &[], 1, 22),
    (26, 0, &[], 1, 26),
    (29, 0, &[], 1, 29),
    (31, 0, &[], 1, 29),
    (32, 0, &[], 1, 32),
    (33, 0, &[], 1, 32),
    (36, 0, &[], 1, 32),
    (39, 0, &[], 1, 32),
    (40, 0, &[], 1, 40),
    (44, 0, &[], 1, 40),
    (47, 0, &[], 1, 40),
    // the first byte is that of a net
    (48, 0, &[1], 1, 0),
    // the first byte is that of a packet
    (48, 0, &[3], 1, 0),
    // kind 0
    (48, 1, &[0], 1, 0),
    // kind 3
    (48, 1, &[3], 1, 0),
    // kind 255
    (48, 1, &[255], 1, 0),
    // one byte left over
    (49, 48, &[0], 1, 48),
    // line 0 has 1 factor instead of 2
    (48, 3, &[1], 9, 2),
    // line 0 has no factor
    (48, 3, &[0], 9, 2),
    // line 0 has 3 factors
    (48, 3, &[3], 9, 2),
    // line 0 has 44 factors, just as many as there are bytes
    (48, 3, &[44], 9, 2),
    // line 0 has 45 factors, one more than there are bytes
    (48, 3, &[45], 1, 2),
    // the count's bytes the wrong way round: 512 factors, not there
    (48, 2, &[2, 0], 1, 2),
    // line 0 has 65,535 factors, not there
    (48, 2, &[255, 255], 1, 2),
    // line 0 has 3 factors, of which 2 are there
    (6, 3, &[3], 1, 2),
    // line 0 has 1 factor, and nothing follows
    (5, 3, &[1], 9, 2),
    // line 2 has 2 factors instead of 1
    (48, 11, &[2], 9, 10),
    // line 6 has 1 factor instead of 2
    (48, 23, &[1], 9, 22),
    // line 8 has 17 factors, all there
    (48, 30, &[17], 9, 29),
    // line 8 has 18 factors, one more than there are bytes
    (48, 30, &[18], 1, 29),
    // two lines with a wrong count: the first is told
    (48, 3, &[3, 1, 0, 0, 2, 0, 1, 0, 0], 9, 2),
    // listener 5 has line 2, which goes to 3
    (48, 33, &[2], 9, 32),
    // listener 5 has line 8, which goes to 6
    (48, 35, &[8], 9, 32),
    // listener 5 has line 9, and there are 9 lines
    (48, 33, &[9], 9, 32),
    // the line's bytes the wrong way round
    (48, 34, &[7, 0], 9, 32),
    // listener 6 has line 65,535
    (48, 40, &[255, 255], 9, 40),
    // listener 6 has line 3, which goes to 5
    (48, 43, &[3], 9, 40),
    // listener 5 has line 2, and its rows are cut short
    (39, 33, &[2], 1, 32),
    // listener 5 has line 2, and nothing follows its rows
    (40, 33, &[2], 9, 32),
    // listener 5 has line 2, and a byte is left over
    (
        49,
        33,
        &[2, 0, 7, 1, 0, 1, 1, 0, 8, 0, 5, 1, 1, 0, 1, 0],
        9,
        32,
    ),
];

const OF_CUT: [Row; 27] = [
    // the plan itself
    (36, 0, &[], 0, 0),
    // the other listener
    (36, 3, &[6], 0, 0),
    // no place in the cut
    (36, 35, &[0], 0, 0),
    // every place in the cut
    (36, 35, &[127], 0, 0),
    // cut short
    (0, 0, &[], 1, 0),
    (1, 0, &[], 1, 0),
    (2, 0, &[], 1, 2),
    (3, 0, &[], 1, 2),
    (4, 0, &[], 1, 2),
    (5, 0, &[], 1, 2),
    (20, 0, &[], 1, 2),
    (35, 0, &[], 1, 2),
    // one byte left over
    (37, 36, &[0], 1, 36),
    // kind 3
    (36, 1, &[3], 1, 0),
    // the first byte is that of a net
    (36, 0, &[1], 1, 0),
    // place 7 is not there
    (36, 3, &[7], 2, 2),
    // the listener's bytes the wrong way round
    (36, 2, &[5, 0], 2, 2),
    // place 4 is no listener
    (36, 3, &[4], 9, 2),
    // the source is no listener
    (36, 3, &[0], 9, 2),
    // a bit for place 7, which is not there
    (36, 35, &[129], 2, 2),
    // a bit for place 8
    (36, 34, &[1], 2, 2),
    // a bit for place 255
    (36, 4, &[128], 2, 2),
    // the bits with the low byte first: a bit for place 248
    (36, 4, &[1], 2, 2),
    // no listener, and a bit for place 7: the lower number
    (
        36,
        3,
        &[
            4, 0, 0, 0, 0, 0, 0, 0, 0, 0, 0, 0, 0, 0, 0, 0, 0, 0, 0, 0, 0, 0, 0, 0, 0, 0, 0, 0, 0,
            0, 0, 0, 129,
        ],
        2,
        2,
    ),
    // place 7 is not there, and a bit for it
    (
        36,
        3,
        &[
            7, 0, 0, 0, 0, 0, 0, 0, 0, 0, 0, 0, 0, 0, 0, 0, 0, 0, 0, 0, 0, 0, 0, 0, 0, 0, 0, 0, 0,
            0, 0, 0, 129,
        ],
        2,
        2,
    ),
    // place 7 is not there, and the bits are cut short
    (35, 3, &[7], 1, 2),
    // no listener, and a byte is left over
    (
        37,
        3,
        &[
            4, 0, 0, 0, 0, 0, 0, 0, 0, 0, 0, 0, 0, 0, 0, 0, 0, 0, 0, 0, 0, 0, 0, 0, 0, 0, 0, 0, 0,
            0, 0, 0, 1, 0,
        ],
        9,
        2,
    ),
];

fn net_of(heap: Global, rate: u8) -> Result<Multicast, Fail> {
    let mut bytes = Vec::from_slice(heap, LINES)?;
    bytes.push(rate)?;
    bytes.extend_from_slice(LISTENERS)?;
    match network::read(heap, &bytes) {
        Ok(net) => Ok(net),
        Err(_) => Err(Fail::new("not a net")),
    }
}

// So many bytes of a plan, with other bytes put into it, or behind it.
fn altered(
    heap: Global,
    plan: &[u8],
    length: usize,
    at: usize,
    put: &[u8],
) -> Result<Vec<u8>, AllocError>
    ensures { IfOk result (λ v. vec_len v ≡ length) }
{
    let mut bytes = Vec::new(heap);
    for i in 0..length {
        let mut byte = plan.get(i).copied().unwrap_or(0);
        if at <= i {
            byte = put.get(i - at).copied().unwrap_or(byte);
        }
        bytes.push(byte)?;
    }
    Ok(bytes)
}

// The number of the fault, 0 for none, and the byte at which its item begins. What is read is written back.
fn answer(
    rt: &impl Abort,
    heap: Global,
    net: &Multicast,
    bytes: &[u8],
) -> Result<(u8, usize), Fail> {
    match wire::read(heap, net, bytes) {
        Ok(plan) => {
            let fitted = Fitted { net, plan: &plan };
            assert_eq!(rt; wire::write(heap, &fitted)?.as_slice(), bytes);
            Ok((0, 0))
        }
        Err(ReadError::Faulty(fault, at)) => Ok((fault.number(), at)),
        Err(ReadError::Memory(_)) => Err(Fail::new("no memory")),
    }
}

fn check_rows(
    rt: &impl Abort,
    heap: Global,
    rate: u8,
    plan: &[u8],
    rows: &[Row],
) -> Result<(), Fail> {
    let net = net_of(heap, rate)?;
    for row in rows {
        let (length, at, put, fault, byte) = *row;
        let bytes = altered(heap, plan, length, at, put)?;
        assert_eq!(rt; answer(rt, heap, &net, &bytes)?, (fault, byte));
    }
    Ok(())
}

#[test]
fn served(rt: HostRuntime) -> Result<(), Fail> {
    check_rows(&rt, rt.alloc(), 2, SERVED, &OF_SERVED)
}

#[test]
fn cut(rt: HostRuntime) -> Result<(), Fail> {
    check_rows(&rt, rt.alloc(), 3, CUT, &OF_CUT)
}

// A cut for a net that can be served; two factors where there must be three; a plan twice.
#[test]
fn other_plans(rt: HostRuntime) -> Result<(), Fail> {
    let heap = rt.alloc();
    let low = net_of(heap, 2)?;
    let high = net_of(heap, 3)?;
    assert_eq!(rt; answer(&rt, heap, &low, CUT)?, (0, 0));
    assert_eq!(rt; answer(&rt, heap, &high, SERVED)?, (9, 2));
    let mut twice = Vec::from_slice(heap, SERVED)?;
    twice.extend_from_slice(SERVED)?;
    assert_eq!(rt; answer(&rt, heap, &low, &twice)?, (1, 48));
    Ok(())
}

#[test]
fn printed(rt: HostRuntime) -> Result<(), Fail> {
    let heap = rt.alloc();
    let unfit = ReadError::Faulty(Fault::Unfit, 2);
    assert!(rt;
        unfit.to_string(heap)?.as_str() == "fault 9 at byte 2: a plan that isn't for this net"
    );
    assert!(rt; ReadError::Memory(2).to_string(heap)?.as_str() == "not enough memory");
    Ok(())
}
