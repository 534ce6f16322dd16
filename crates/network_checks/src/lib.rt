// Nets as bytes with the answers that the rules of the format give, worked out by hand.
#![tactic(auto)]

// The answer to some bytes: the number of the fault, 0 for none, and the byte at which its item begins.
pub struct Case {
    pub bytes: &'static [u8],
    pub fault: u8,
    pub at: usize,
}

// The bytes of a net of nine lines: 0-1, 0-2, 1-3, 1-5, 2-3, 2-6, 3-4, 4-5, 4-6; rate 2; listeners 5 and 6.
pub const NINE: [u8; 47] = [
    1, 0, 7, 0, 9, 0, 0, 0, 1, 0, 0, 0, 2, 0, 1, 0, 3, 0, 1, 0, 5, 0, 2, 0, 3, 0, 2, 0, 6, 0, 3, 0,
    4, 0, 4, 0, 5, 0, 4, 0, 6, 2, 2, 0, 5, 0, 6,
];

// Where the item begins that is cut short, when only the first 0, 1, .. 46 of those bytes are there.
pub const CUT_AT: [usize; 47] = [
    0, 0, 0, 0, 0, 5, 5, 5, 5, 9, 9, 9, 9, 13, 13, 13, 13, 17, 17, 17, 17, 21, 21, 21, 21, 25, 25,
    25, 25, 29, 29, 29, 29, 33, 33, 33, 33, 37, 37, 37, 37, 41, 41, 43, 43, 45, 45,
];

pub const CASES: [Case; 42] = [
    // two places, one line, rate 1
    Case {
        bytes: &[1, 0, 2, 0, 1, 0, 0, 0, 1, 1, 1, 0, 1],
        fault: 0,
        at: 0,
    },
    // no line
    Case {
        bytes: &[1, 0, 2, 0, 0, 1, 1, 0, 1],
        fault: 0,
        at: 0,
    },
    // 256 places
    Case {
        bytes: &[1, 1, 0, 0, 0, 1, 1, 0, 255],
        fault: 0,
        at: 0,
    },
    // rate 32
    Case {
        bytes: &[1, 0, 2, 0, 0, 32, 1, 0, 1],
        fault: 0,
        at: 0,
    },
    // two lines between the same places
    Case {
        bytes: &[1, 0, 2, 0, 2, 0, 0, 0, 1, 0, 0, 0, 1, 2, 1, 0, 1],
        fault: 0,
        at: 0,
    },
    // nothing
    Case {
        bytes: &[],
        fault: 1,
        at: 0,
    },
    // kinds 0 and 2
    Case {
        bytes: &[0, 0, 2, 0, 0, 1, 1, 0, 1],
        fault: 1,
        at: 0,
    },
    Case {
        bytes: &[2, 0, 2, 0, 0, 1, 1, 0, 1],
        fault: 1,
        at: 0,
    },
    // a byte left over
    Case {
        bytes: &[1, 0, 2, 0, 1, 0, 0, 0, 1, 1, 1, 0, 1, 0],
        fault: 1,
        at: 13,
    },
    // no place, 257 places, 1,025 lines
    Case {
        bytes: &[1, 0, 0, 0, 0, 1, 1, 0, 1],
        fault: 2,
        at: 0,
    },
    Case {
        bytes: &[1, 1, 1, 0, 0, 1, 1, 0, 1],
        fault: 2,
        at: 0,
    },
    Case {
        bytes: &[1, 0, 2, 4, 1, 1, 1, 0, 1],
        fault: 2,
        at: 0,
    },
    // 1,024 lines of which none is there
    Case {
        bytes: &[1, 0, 2, 4, 0],
        fault: 1,
        at: 5,
    },
    // a line from a place that isn't there, and one to such a place
    Case {
        bytes: &[1, 0, 2, 0, 1, 0, 2, 0, 1, 1, 1, 0, 1],
        fault: 2,
        at: 5,
    },
    Case {
        bytes: &[1, 0, 2, 0, 1, 0, 0, 0, 2, 1, 1, 0, 1],
        fault: 2,
        at: 5,
    },
    // the high byte of a place counts
    Case {
        bytes: &[1, 0, 2, 0, 1, 0, 0, 1, 1, 1, 1, 0, 1],
        fault: 2,
        at: 5,
    },
    // a line into the source, and one from a place to itself
    Case {
        bytes: &[1, 0, 3, 0, 1, 0, 1, 0, 0, 1, 1, 0, 1],
        fault: 3,
        at: 5,
    },
    Case {
        bytes: &[1, 0, 3, 0, 1, 0, 1, 0, 1, 1, 1, 0, 1],
        fault: 3,
        at: 5,
    },
    // 0-1, 1-2, 2-1
    Case {
        bytes: &[
            1, 0, 3, 0, 3, 0, 0, 0, 1, 0, 1, 0, 2, 0, 2, 0, 1, 1, 1, 0, 2,
        ],
        fault: 4,
        at: 13,
    },
    // 1-2, 0-1: the line into 1 stands behind the one out of it
    Case {
        bytes: &[1, 0, 3, 0, 2, 0, 1, 0, 2, 0, 0, 0, 1, 1, 1, 0, 2],
        fault: 4,
        at: 9,
    },
    // 0-2, 1-2: both lines into 2 may stand behind each other
    Case {
        bytes: &[
            1, 0, 3, 0, 3, 0, 0, 0, 1, 0, 0, 0, 2, 0, 1, 0, 2, 2, 1, 0, 2,
        ],
        fault: 0,
        at: 0,
    },
    // a line out of place 1, into which none comes
    Case {
        bytes: &[1, 0, 3, 0, 1, 0, 1, 0, 2, 1, 1, 0, 2],
        fault: 10,
        at: 9,
    },
    // the same with nothing behind the lines
    Case {
        bytes: &[1, 0, 3, 0, 1, 0, 1, 0, 2],
        fault: 10,
        at: 9,
    },
    // the last place is looked at too
    Case {
        bytes: &[1, 0, 3, 0, 1, 0, 2, 0, 1, 1, 1, 0, 1],
        fault: 10,
        at: 9,
    },
    // rate 0, rate 33
    Case {
        bytes: &[1, 0, 2, 0, 0, 0, 1, 0, 1],
        fault: 2,
        at: 5,
    },
    Case {
        bytes: &[1, 0, 2, 0, 0, 33, 1, 0, 1],
        fault: 2,
        at: 5,
    },
    // no listener, 65 listeners
    Case {
        bytes: &[1, 0, 2, 0, 0, 1, 0],
        fault: 2,
        at: 5,
    },
    Case {
        bytes: &[1, 0, 2, 0, 0, 1, 65, 0, 1],
        fault: 2,
        at: 5,
    },
    // 64 listeners of which one is there
    Case {
        bytes: &[1, 0, 2, 0, 0, 1, 64, 0, 1],
        fault: 1,
        at: 9,
    },
    // a listener that is no place
    Case {
        bytes: &[1, 0, 2, 0, 0, 1, 1, 0, 2],
        fault: 2,
        at: 7,
    },
    // the source as listener
    Case {
        bytes: &[1, 0, 2, 0, 0, 1, 1, 0, 0],
        fault: 5,
        at: 7,
    },
    // one place: there is none but the source
    Case {
        bytes: &[1, 0, 1, 0, 0, 1, 1, 0, 0],
        fault: 5,
        at: 7,
    },
    Case {
        bytes: &[1, 0, 1, 0, 0, 1, 1, 0, 1],
        fault: 2,
        at: 7,
    },
    // listeners 1 1 and 2 1
    Case {
        bytes: &[1, 0, 3, 0, 0, 1, 2, 0, 1, 0, 1],
        fault: 5,
        at: 9,
    },
    Case {
        bytes: &[1, 0, 3, 0, 0, 1, 2, 0, 2, 0, 1],
        fault: 5,
        at: 9,
    },
    // two faults in one item: wrong kind and no place; from no place into the source; into itself behind a line out of it
    Case {
        bytes: &[2, 0, 0, 0, 0],
        fault: 1,
        at: 0,
    },
    Case {
        bytes: &[1, 0, 2, 0, 1, 0, 2, 0, 0, 1, 1, 0, 1],
        fault: 2,
        at: 5,
    },
    Case {
        bytes: &[
            1, 0, 3, 0, 3, 0, 0, 0, 1, 0, 1, 0, 2, 0, 1, 0, 1, 1, 1, 0, 2,
        ],
        fault: 3,
        at: 13,
    },
    // cut short, and what is there of it would be out of range
    Case {
        bytes: &[1, 0, 2, 0, 1, 0, 9, 0],
        fault: 1,
        at: 5,
    },
    // a fault before a later one of a lower number
    Case {
        bytes: &[1, 0, 3, 0, 2, 0, 1, 0, 0, 0, 9, 0, 1, 1, 1, 0, 1],
        fault: 3,
        at: 5,
    },
    Case {
        bytes: &[1, 0, 3, 0, 1, 0, 1, 0, 2, 0, 1, 0, 2],
        fault: 10,
        at: 9,
    },
    Case {
        bytes: &[1, 0, 2, 0, 0, 1, 1, 0, 0, 7],
        fault: 5,
        at: 7,
    },
];

#[cfg(test)]
mod tests {
    use super::*;
    use network::ReadError;
    use std::alloc::{AllocError, Global};
    use std::test::Fail;

    // The number of the fault, 0 for none, and the byte at which its item begins.
    fn answer(heap: Global, bytes: &[u8]) -> (u8, usize) {
        match network::read(heap, bytes) {
            Ok(_) => (0, 0),
            Err(ReadError::Faulty(fault, at)) => (fault.number(), at),
            Err(ReadError::Memory) => (255, 0),
        }
    }

    #[test]
    fn table(rt: HostRuntime) {
        for case in CASES.iter() {
            assert_eq!(rt; answer(rt.alloc(), case.bytes), (case.fault, case.at));
        }
    }

    #[test]
    fn cut_short(rt: HostRuntime) {
        for n in 0..47usize {
            assert_eq!(rt; answer(rt.alloc(), &NINE[0..n]), (1, CUT_AT[n]));
        }
        assert_eq!(rt; answer(rt.alloc(), &NINE), (0, 0));
    }
    // 256 places; 1,024 lines from the source to places 1 to 255, over and over; rate 32; listeners 1 to 64.
    fn largest(heap: Global) -> Result<Vec<u8>, AllocError> {
        let mut bytes = Vec::from_slice(heap, &[1, 1, 0, 4, 0])?;
        for k in 0..1024u16 {
            bytes.extend_from_slice(&[0, 0, 0, (k % 255 + 1) as u8])?;
        }
        bytes.extend_from_slice(&[32, 64])?;
        for p in 1..65u8 {
            bytes.extend_from_slice(&[0, p])?;
        }
        Ok(bytes)
    }

    #[test]
    fn largest_net(rt: HostRuntime) -> Result<(), Fail> {
        let heap = rt.alloc();
        let mut bytes = largest(heap)?;
        assert_eq!(rt; bytes.len(), 4231);
        match network::read(heap, &bytes) {
            Ok(net) => {
                assert_eq!(rt; net.network.nodes, 256);
                assert_eq!(rt; net.network.links.len(), 1024);
                assert_eq!(rt; net.network.links.last().map(|link| link.to), Some(4));
                assert_eq!(rt; net.rate, 32);
                assert_eq!(rt; net.receivers.last().copied(), Some(64));
                assert!(rt; network::write(heap, &net)? == bytes);
            }
            Err(_) => return Err(Fail::new("refused")),
        }
        bytes.push(0)?;
        assert_eq!(rt; answer(heap, &bytes), (1, 4231));
        Ok(())
    }

    // 1-2, 0-1: the line into 1 stands behind the one out of it.
    #[test]
    fn printed(rt: HostRuntime) -> Result<(), Fail> {
        let heap = rt.alloc();
        let bytes = [1, 0, 3, 0, 2, 0, 1, 0, 2, 0, 0, 0, 1, 1, 1, 0, 2];
        let Err(error) = network::read(heap, &bytes) else {
            return Err(Fail::new("accepted"));
        };
        assert!(rt;
            error.to_string(heap)?.as_str()
                == "fault 4 at byte 9: a line into a place after one out of it"
        );
        assert!(rt; ReadError::Memory.to_string(heap)?.as_str() == "not enough memory");
        Ok(())
    }

    #[test]
    fn nine_lines(rt: HostRuntime) -> Result<(), Fail> {
        let heap = rt.alloc();
        let Ok(net) = network::read(heap, &NINE) else {
            return Err(Fail::new("refused"));
        };
        assert_eq!(rt; net.network.nodes, 7);
        let from: Vec<u16> = net
            .network
            .links
            .iter()
            .map(|link| link.from)
            .collect(heap)?;
        let to: Vec<u16> = net.network.links.iter().map(|link| link.to).collect(heap)?;
        assert!(rt; from.as_slice() == [0, 0, 1, 1, 2, 2, 3, 4, 4].as_slice());
        assert!(rt; to.as_slice() == [1, 2, 3, 5, 3, 6, 4, 5, 6].as_slice());
        assert_eq!(rt; net.rate, 2);
        assert!(rt; net.receivers.as_slice() == [5, 6].as_slice());
        assert!(rt; network::write(heap, &net)?.as_slice() == NINE.as_slice());
        Ok(())
    }
}
