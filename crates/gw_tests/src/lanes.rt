use gw_lanes::{class_counts, count_at_most, first_at, least};
use std::test::Fail;

// Of none, one and two, of a block of eight and a rest, of two blocks, and of a rest that has the least.
#[test]
fn the_least_of_numbers(rt: HostRuntime) {
    let cases: [(&[u64], Option<u64>); 9] = [
        (&[], None),
        (&[0], Some(0)),
        (&[7], Some(7)),
        (&[4_294_967_296, 5], Some(5)),
        (
            &[9, 8, 7, 6, 5, 4, 3, 2, 10, 11, 12, 13, 14, 15, 16],
            Some(2),
        ),
        (
            &[9, 8, 7, 6, 5, 4, 3, 2, 10, 11, 12, 13, 14, 1, 16, 17],
            Some(1),
        ),
        (
            &[9, 8, 7, 6, 5, 4, 3, 2, 10, 11, 12, 13, 14, 5, 16, 17, 1],
            Some(1),
        ),
        (&[u64::MAX; 17], Some(u64::MAX)),
        (&[u64::MAX; 8], Some(u64::MAX)),
    ];
    for (numbers, wanted) in cases {
        assert_eq!(rt; least(numbers), wanted);
    }
}

#[test]
fn thirty_three_numbers(rt: HostRuntime) -> Result<(), Fail> {
    let alloc = rt.alloc();
    let mut numbers = vec![in alloc; 1000; 33]?;
    assert_eq!(rt; least(&numbers), Some(1000));
    numbers[20] = 999;
    assert_eq!(rt; least(&numbers), Some(999));
    Ok(())
}

// Of 0, 7, 8, 9, 15, 16, 17 and 33 numbers: the wanted one stands at the last place alone.
#[test]
fn the_last_place(rt: HostRuntime) {
    let mut values = [1_001_000_000_000; 33];
    values[32] = 5;
    for part in [
        &values[33..],
        &values[26..],
        &values[25..],
        &values[24..],
        &values[18..],
        &values[17..],
        &values[16..],
        &values[..],
    ] {
        assert_eq!(rt; first_at(part, 5), part.len().checked_sub(1));
        assert_eq!(rt; first_at(part, 6), None);
    }
}

// The wanted number stands at several places, or only its low 32 bits do.
#[test]
fn the_first_of_equal_places(rt: HostRuntime) {
    let mut values = [3; 33];
    values[32] = 8;
    values[14] = 8;
    values[12] = 8;
    let cases: [(&[u64], u64, usize); 6] = [
        (&[1_001_000_000_000; 17], 1_001_000_000_000, 0),
        (&[1_001_000_000_000; 7], 1_001_000_000_000, 0),
        (&values, 8, 12),
        (&values[13..], 8, 1),
        (&values[15..], 8, 17),
        (&[4_294_967_297, 4_294_967_297, 3, 4, 5, 6, 7, 1, 9], 1, 7),
    ];
    for (numbers, wanted, place) in cases {
        assert_eq!(rt; first_at(numbers, wanted), Some(place));
    }
}

// Of 0, 15, 16, 17 and 33 values: all are one, which is below, at and above the limit.
#[test]
fn values_that_are_all_one(rt: HostRuntime) {
    let values = [7; 33];
    for count in [0, 15, 16, 17, 33] {
        let part = &values[..count];
        assert_eq!(rt; count_at_most(part, 6), 0);
        assert_eq!(rt; count_at_most(part, 7), count);
        assert_eq!(rt; count_at_most(part, 8), count);
    }
}

// At both ends of the range.
#[test]
fn values_at_both_ends(rt: HostRuntime) {
    let mut values = [i32::MIN; 33];
    values[16..].fill(i32::MAX);
    let cases: [(&[i32], i32, usize); 6] = [
        (&values, i32::MIN, 16),
        (&values, i32::MAX, 33),
        (&values, 0, 16),
        (&values[1..], -1, 15),
        (&values[16..], i32::MAX - 1, 0),
        (&[], i32::MAX, 0),
    ];
    for (numbers, limit, wanted) in cases {
        assert_eq!(rt; count_at_most(numbers, limit), wanted);
    }
}

// A value at a limit lies in the class below it, also in the rest after the blocks.
#[test]
fn values_by_classes(rt: HostRuntime) {
    let mut values = [10; 33];
    values[..15].fill(-5);
    values[32] = 11;
    let cases: [(&[i32], &[i32], [u32; 3]); 8] = [
        (&values, &[-5, 10], [15, 17, 1]),
        (&values, &[-6, 9], [0, 15, 18]),
        (&values, &[-1_000_000_000, 1_000_000_000], [0, 33, 0]),
        (&values, &[11, 12], [33, 0, 0]),
        (&values[..16], &[-5, 10], [15, 1, 0]),
        (&values[..15], &[-5, 10], [15, 0, 0]),
        (&values[15..32], &[-5, 10], [0, 17, 0]),
        (&[], &[-5, 10], [0, 0, 0]),
    ];
    for (numbers, limits, wanted) in cases {
        let mut counts = [9; 3];
        class_counts(numbers, limits, &mut counts);
        assert_eq!(rt; counts, wanted);
    }
}

// Without a limit there is one class.
#[test]
fn values_of_one_class(rt: HostRuntime) {
    let values = [i32::MAX; 17];
    let mut counts = [9];
    class_counts(&values, &[], &mut counts);
    assert_eq!(rt; counts, [17]);
}
