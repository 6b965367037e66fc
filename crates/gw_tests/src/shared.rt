use gw_shared::SharedList;
use std::alloc::AllocError;
use std::test::Fail;

// The numbers below a bound, in order.
fn numbers(list: &mut SharedList<u64>, bound: u64) -> Result<(), AllocError> {
    for number in 0..bound {
        list.reserve(1)?;
        list.push(number);
    }
    Ok(())
}

fn at(list: &SharedList<u64>, index: usize) -> Option<u64> {
    list.get(index).copied()
}

#[test]
fn a_chunk_that_is_full_and_one_more(rt: HostRuntime) -> Result<(), Fail> {
    for count in [63, 64, 65, 128, 129] {
        let mut list = SharedList::new(rt.alloc());
        numbers(&mut list, count)?;
        list.share()?;
        list.reserve(1)?;
        list.push(1000);
        let kept = list.copy()?;
        assert_eq!(rt; list.pop_front(), Some(0));
        assert_eq!(rt; at(&list, 0), Some(1));
        assert_eq!(rt; at(&kept, 0), Some(0));
        assert_eq!(rt; list.len() + 1, kept.len());
        assert_eq!(rt; at(&kept, kept.len() - 1), Some(1000));
    }
    Ok(())
}

#[test]
fn chunks_split_and_go(rt: HostRuntime) -> Result<(), Fail> {
    let mut list = SharedList::new(rt.alloc());
    numbers(&mut list, 200)?;
    list.share()?;
    let kept = list.copy()?;
    assert!(rt; list.len() == 200);
    list.reserve(3)?;
    list.insert(70, 1000);
    list.insert(0, 1001);
    list.set(1, 1002);
    for (place, number) in [
        (0, 1001),
        (1, 1002),
        (2, 1),
        (70, 69),
        (71, 1000),
        (72, 70),
        (201, 199),
    ] {
        assert_eq!(rt; at(&list, place), Some(number));
    }
    for _ in 0..100 {
        list.reserve(1)?;
        assert!(rt; list.len() > 72);
        list.remove(72);
    }
    assert_eq!(rt; list.len(), 102);
    for (place, number) in [(71, 1000), (72, 170), (101, 199)] {
        assert_eq!(rt; at(&list, place), Some(number));
    }
    for (place, number) in [(0, 0), (70, 70), (199, 199)] {
        assert_eq!(rt; at(&kept, place), Some(number));
    }
    Ok(())
}

#[test]
fn from_long_to_short(rt: HostRuntime) -> Result<(), Fail> {
    let mut list = SharedList::new(rt.alloc());
    numbers(&mut list, 100)?;
    list.share()?;
    for number in 0..100 {
        assert_eq!(rt; list.pop_front(), Some(number));
        list.reserve(1)?;
    }
    assert_eq!(rt; list.pop_front(), None);
    assert!(rt; list.is_empty());
    list.reserve(100)?;
    list.push(7);
    assert_eq!(rt; at(&list, 0), Some(7));
    list.clear();
    assert_eq!(rt; list.len(), 0);
    Ok(())
}
