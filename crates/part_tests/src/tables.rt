//! The table of a site.
use crate::names::{KEY, one_row, row};
use site_tables::Tables;
use std::test::Fail;

#[test]
fn the_write_with_the_greatest_number_stays(rt: HostRuntime) -> Result<(), Fail> {
    let alloc = rt.alloc();
    let mut tables = Tables::new(alloc, &one_row(alloc, 7)?)?;
    for (value, number, kept) in [(1, 0, 7), (2, 4, 2), (3, 3, 2), (4, 4, 2), (5, 9, 5)] {
        let writes = one_row(alloc, value)?;
        tables.reserve(alloc, 1)?;
        tables.install(&writes, number);
        assert!(rt; tables.get(KEY) == kept, "{number}");
    }
    let rows = tables.rows(alloc)?;
    assert!(rt; rows.as_slice() == [row(5)].as_slice());
    Ok(())
}
