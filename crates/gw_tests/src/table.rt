ghost use Rattle.std.specs.Prelude.{◌≡◌, OnOk, OnErr};
ghost use Rattle.gw_table.specs.Pairs.{with_value};

use gw_table::Table;
use std::alloc::AllocError;
use std::test::Fail;

#[test]
fn pairs_stay_in_the_order_of_first_insertion(rt: HostRuntime) -> Result<(), Fail> {
    let mut table = Table::new(rt.alloc());
    table.reserve(7)?;
    table.set(7, 'a');
    table.set(3, 'b');
    table.set(7, 'c');
    assert_eq!(rt; table.len(), 2);
    for (place, pair) in [(0, Some((7, 'c'))), (1, Some((3, 'b'))), (2, None)] {
        assert_eq!(rt; table.pair(place), pair);
    }
    for (number, value) in [(7, Some('c')), (3, Some('b')), (0, None), (u64::MAX, None)] {
        assert_eq!(rt; table.get(number), value);
    }
    Ok(())
}

#[test]
fn a_copy_goes_its_own_way(rt: HostRuntime) -> Result<(), Fail> {
    let mut table = Table::new(rt.alloc());
    table.reserve(2)?;
    table.set(2, 1u8);
    let mut copy = table.copy()?;
    copy.set(2, 5);
    copy.reserve(6000)?;
    copy.set(6000, 6);
    assert_eq!(rt; copy.pair(0), Some((2, 5)));
    assert_eq!(rt; copy.pair(1), Some((6000, 6)));
    assert_eq!(rt; table.pair(0), Some((2, 1)));
    assert_eq!(rt; table.len(), 1);
    Ok(())
}

#[test]
fn no_room_for_a_number_beyond_32_bits(rt: HostRuntime) -> Result<(), Fail> {
    let mut table = Table::new(rt.alloc());
    table.reserve(1)?;
    table.set(1, 1u8);
    assert!(rt; table.reserve(4_294_967_296).is_err());
    assert!(rt; table.reserve(u64::MAX).is_err());
    assert_eq!(rt; table.pair(0), Some((1, 1)));
    assert_eq!(rt; table.len(), 1);
    Ok(())
}

// Nothing fails after the room that is made first, and no setting takes it away.
fn set_both(table: &mut Table<u8>, from: u64, to: u64) -> Result<(), AllocError>
    ensures ok { OnOk result (table.new.entries ≡ with_value (with_value table.old.entries from 1) to 2) }
    ensures err { OnErr result (table.new.entries ≡ table.old.entries) }
{
    table.reserve(from)?;
    table.reserve(to)?;
    table.set(from, 1);
    table.set(to, 2);
    Ok(())
}

// What is there already needs no room.
fn clear(table: &mut Table<u8>, number: u64)
    ensures { table.new.limit ≡ table.old.limit }
{
    if let Some(_) = table.get(number) {
        table.set(number, 0);
    }
}

#[test]
fn room_stays(rt: HostRuntime) -> Result<(), Fail> {
    let mut table = Table::new(rt.alloc());
    set_both(&mut table, 8, 3)?;
    clear(&mut table, 8);
    clear(&mut table, 5);
    assert_eq!(rt; table.pair(0), Some((8, 0)));
    assert_eq!(rt; table.pair(1), Some((3, 2)));
    assert_eq!(rt; table.len(), 2);
    Ok(())
}
