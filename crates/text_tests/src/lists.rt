//! Lists, rising lists, rows and texts, and want of memory where it is passed on.
use mdb_base::{
    Few, Key, Memory, Put, Puts, Tid, Tx, Values, put_number, put_text, put_tid, sort_rows,
};
use std::alloc::Global;
use std::test::Fail;

#[test]
fn a_list_gives_its_items_back(rt: HostRuntime) -> Result<(), Fail> {
    let list = Values::of(vec![in rt.alloc(); 7, 8]?);
    assert_eq!(rt; list.len(), 2);
    assert!(rt; !list.is_empty());
    assert_eq!(rt; *list.at(1), 8);
    assert_eq!(rt; list.as_slice(), [7, 8].as_slice());
    assert_eq!(rt; list.into_items().as_slice(), [7, 8].as_slice());
    Ok(())
}

#[test]
fn a_rising_list_gives_its_items_back(rt: HostRuntime) -> Result<(), Fail> {
    let low = Put {
        key: Key(3),
        value: 9,
    };
    let high = Put {
        key: Key(4),
        value: 1,
    };
    let rows = Puts::of(vec![in rt.alloc(); low, high]?);
    assert_eq!(rt; rows.len(), 2);
    assert_eq!(rt; *rows.at(1), high);
    assert_eq!(rt; rows.as_slice(), [low, high].as_slice());
    assert_eq!(rt; rows.into_items().as_slice(), [low, high].as_slice());
    Ok(())
}

#[test]
fn rows_are_put_in_order(rt: HostRuntime) -> Result<(), Fail> {
    let low = Put {
        key: Key(3),
        value: 9,
    };
    let high = Put {
        key: Key(4),
        value: 1,
    };
    let rows = sort_rows(vec![in rt.alloc(); high, low]?);
    assert_eq!(rt; rows.as_slice(), [low, high].as_slice());
    Ok(())
}

#[test]
fn numbers_and_attempts_stand_behind_what_was_there(rt: HostRuntime) -> Result<(), Fail> {
    let mut out = vec![in rt.alloc(); b'>']?;
    put_number(&mut out, 0)?;
    put_text(&mut out, " ")?;
    put_number(&mut out, u64::MAX)?;
    put_text(&mut out, " ")?;
    let tid = Tid {
        tx: Tx(1024),
        attempt: 31,
    };
    put_tid(&mut out, tid)?;
    assert_eq!(rt;
        out.as_slice(),
        b">0 18446744073709551615 1024.31".as_slice()
    );
    Ok(())
}

fn two(alloc: Global) -> Result<Vec<u64>, Memory> {
    let mut list = Vec::with_capacity(alloc, 1)?;
    list.push(1)?;
    list.push(2)?;
    Ok(list)
}

#[test]
fn want_of_memory_is_passed_on(rt: HostRuntime) -> Result<(), Fail> {
    let list = two(rt.alloc())?;
    assert_eq!(rt; list.as_slice(), [1, 2].as_slice());
    Ok(())
}

#[test]
fn numbers_of_each_length_are_written(rt: HostRuntime) -> Result<(), Fail> {
    let mut out = Vec::new(rt.alloc());
    for number in [
        9, 10, 99, 100, 907, 999, 1000, 1024, 9999, 10_000, 65_000u64,
    ] {
        put_number(&mut out, number)?;
        put_text(&mut out, " ")?;
    }
    assert_eq!(rt;
        out.as_slice(),
        b"9 10 99 100 907 999 1000 1024 9999 10000 65000 ".as_slice()
    );
    Ok(())
}

#[test]
fn a_short_list_gives_its_items_back(rt: HostRuntime) -> Result<(), Fail> {
    let alloc = rt.alloc();
    let mut list: Few<u64> = Few::none();
    assert!(rt; list.is_empty());
    list.push(alloc, 7)?;
    assert_eq!(rt; list.as_slice(), [7].as_slice());
    list.push(alloc, 8)?;
    list.push(alloc, 9)?;
    assert_eq!(rt; list.len(), 3);
    assert_eq!(rt; list.as_slice(), [7, 8, 9].as_slice());
    Ok(())
}

#[test]
fn short_lists_are_equal_wherever_they_lie(rt: HostRuntime) -> Result<(), Fail> {
    let alloc = rt.alloc();
    let one = Few::one(5u64);
    let many = Few::of(vec![in alloc; 5u64]?);
    assert!(rt; one == many);
    assert!(rt; many == one.clone()?);
    assert!(rt; many != Few::none());
    assert!(rt; one != Few::one(6));
    Ok(())
}
