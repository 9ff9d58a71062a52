//! Programs one at a time.
use crate::names::{KEY, SITE, one_row, row};
use mdb_base::{Act, Program, SiteRows, Step};
use serial_machine::{AllTables, run_alone, run_serial};
use std::test::Fail;

// Reads the key, and writes what it read plus 7 there.
const ADDS_7: [Step; 2] = [
    Step {
        site: SITE,
        act: Act::Get(KEY),
    },
    Step {
        site: SITE,
        act: Act::Add {
            key: KEY,
            register: 0,
            amount: 7,
        },
    },
];

#[test]
fn programs_run_one_after_another(rt: HostRuntime) -> Result<(), Fail> {
    let alloc = rt.alloc();
    let program = Program::new(alloc, &ADDS_7)?;
    let rows = one_row(alloc, 3)?;
    let given = vec![in alloc; SiteRows { site: SITE, rows }]?;
    let mut tables = AllTables::new(alloc, &given)?;
    let alone = run_alone(alloc, &program, &mut tables)?;
    assert!(rt; alone.as_slice() == [3].as_slice());
    let programs = vec![in alloc; program]?;
    let reads = run_serial(alloc, &programs, &mut tables)?;
    assert!(rt; reads.len() == 1 && reads.at(0).as_slice() == [10].as_slice());
    let left = tables.rows(alloc, SITE)?;
    assert!(rt; left.as_slice() == [row(17)].as_slice());
    Ok(())
}
