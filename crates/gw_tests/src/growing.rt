use gw_shared::Growing;
use std::test::Fail;

fn at(list: &Growing<usize>, index: usize) -> Option<usize> {
    if index < list.len() {
        Some(*list.at(index))
    } else {
        None
    }
}

#[test]
fn a_list_that_is_cut_and_grows_again(rt: HostRuntime) -> Result<(), Fail> {
    for (count, left) in [
        (1023, 1022),
        (1024, 1),
        (1025, 1024),
        (2049, 1025),
        (3000, 0),
        (3000, 1023),
    ] {
        let mut list = Growing::new(rt.alloc());
        for number in 0..count {
            list.push(number)?;
        }
        let kept = list.copy()?;
        list.truncate(left);
        assert_eq!(rt; list.len(), left);
        assert_eq!(rt; list.last().copied(), left.checked_sub(1));
        for number in 0..1500 {
            list.push(number)?;
        }
        assert_eq!(rt; list.len().checked_sub(left), Some(1500));
        assert_eq!(rt; list.last().copied(), Some(1499));
        for number in [0, 1, 1023, 1024] {
            assert_eq!(rt; at(&list, left.saturating_add(number)), Some(number));
        }
        assert_eq!(rt; at(&list, left / 2), Some(left / 2));
        assert_eq!(rt; at(&list, list.len()), None);
        assert_eq!(rt; kept.len(), count);
        assert_eq!(rt; at(&kept, left), Some(left));
        assert_eq!(rt; kept.last().copied(), count.checked_sub(1));
    }
    Ok(())
}
