use crate::tables::{INVERSES, PRODUCTS};
use gf_bytes::{PACKET_LENGTH, Vector, double, inverse, mix, mul};
use std::test::Fail;

// The chain of FIPS 197, section 4.2, for {57} times {13}, and its products.
#[test]
fn fips_197(rt: HostRuntime) {
    let mut power = 0x57;
    for next in [0xae, 0x47, 0x8e, 0x07] {
        power = double(power);
        assert_eq!(rt; power, next);
    }
    assert_eq!(rt; mul(0x57, 0x83), 0xc1);
    assert_eq!(rt; mul(0x57, 0x13), 0xfe);
}

#[test]
fn products(rt: HostRuntime) {
    let mut a = 0u8;
    for row in PRODUCTS {
        let mut b = 255u8;
        for product in row {
            assert_eq!(rt; mul(a, b), product);
            b = b.wrapping_add(91);
        }
        a = a.wrapping_add(37);
    }
}

#[test]
fn inverses(rt: HostRuntime) {
    let mut a = 0u8;
    for row in INVERSES {
        for power in row {
            if a > 0 {
                assert_eq!(rt; inverse(a), power);
            }
            a = a.wrapping_add(1);
        }
    }
}

// At the first place 2·1 + 3·128 + 0·7 is 2 + 155, which is 153, and at the last one 2·128 + 3·0 + 0·7 is 27.
#[test]
fn mix_of_three_packets(rt: HostRuntime) {
    let mut packets = [[0; PACKET_LENGTH], [0; PACKET_LENGTH], [7; PACKET_LENGTH]];
    packets[0][0] = 1;
    packets[0][1023] = 128;
    packets[1][0] = 128;
    let sum = mix(&[2, 3, 0], &packets);
    assert_eq!(rt; sum[0], 153);
    assert_eq!(rt; sum[1], 0);
    assert_eq!(rt; sum[1023], 27);
    // With one factor only the first packet counts.
    assert_eq!(rt; mix(&[2], &packets)[0], 2);
}

// (1, 2, 0) + 3·(0, 1, 0, 128), which is (1, 1, 0, 155).
fn sum_of_vectors() -> Option<Vector> {
    let a = Vector::unit(3, 0)? + Vector::unit(3, 1)?.scaled(2);
    let b = Vector::unit(4, 1)?.plus(Vector::unit(4, 3)?.scaled(128));
    Some(a + b.scaled(3))
}

#[test]
fn vectors(rt: HostRuntime) -> Result<(), Fail> {
    let Some(sum) = sum_of_vectors() else {
        return Err(Fail::new("no unit vector"));
    };
    assert_eq!(rt; sum.count(), 4);
    assert_eq!(rt;
        [
            sum.at(0),
            sum.at(1),
            sum.at(2),
            sum.at(3),
            sum.at(4),
            sum.at(1000),
        ],
        [1, 1, 0, 155, 0, 0]
    );
    let Some(last) = Vector::unit(4, 3) else {
        return Err(Fail::new("no unit vector"));
    };
    // 0·1 + 0·1 + 0·0 + 2·155
    assert_eq!(rt; sum.dot(last.scaled(2)), 45);
    assert!(rt; Vector::zero(32).is_some());
    assert!(rt; Vector::zero(33).is_none());
    assert!(rt; Vector::unit(33, 0).is_none());
    assert!(rt; Vector::unit(3, 3).is_none());
    Ok(())
}
