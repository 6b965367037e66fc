use gw_streams::Streams;

#[test]
fn first_numbers_of_seed_1(rt: HostRuntime) {
    let mut streams = Streams::new();
    assert!(rt; streams.wants_seed(1));
    for number in [16807, 282475249, 1622650073, 984943658, 1144108930] {
        assert_eq!(rt; streams.draw(1, 1), number);
    }
    assert!(rt; !streams.wants_seed(1));
}

#[test]
fn number_10000_of_seed_1(rt: HostRuntime) {
    let mut streams = Streams::new();
    for _ in 1..10_000 {
        streams.draw(1, 1);
    }
    assert_eq!(rt; streams.draw(1, 1), 1043618065);
}

#[test]
fn set_to_5(rt: HostRuntime) {
    let mut streams = Streams::new();
    streams.draw(1, 1);
    streams.set_all(&[Some(5)]);
    assert!(rt; streams.wants_seed(1));
    assert_eq!(rt; streams.draw(1, 1), 84035);
    assert_eq!(rt; streams.draw(1, 1), 1412376245);
    streams.set_all(&[None, Some(1)]);
    assert!(rt; !streams.wants_seed(1));
    streams.set(1, 5);
    assert_eq!(rt; streams.draw(1, 1), 84035);
}

#[test]
fn greatest_seed(rt: HostRuntime) {
    let mut streams = Streams::new();
    assert_eq!(rt; streams.draw(1, 2147483646), 2147466840);
    // Stream 2 starts at 1.
    assert_eq!(rt; streams.draw(2, 2147483646), 16807);
}
