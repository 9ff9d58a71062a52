//! The scenario of a number, against the numbers as another program draws them.
use fed_rules::TxLine;
use mdb_base::{Act, Engine, Key, SiteId, Step};
use presumptions::Protocol;
use scenario_maker::make;
use std::test::Fail;

/// A step of a read.
fn get(site: u8, key: u16) -> Step {
    Step {
        site: SiteId(site),
        act: Act::Get(Key(key)),
    }
}

/// A step that adds to what was read.
fn add(site: u8, key: u16, register: u8, amount: u64) -> Step {
    Step {
        site: SiteId(site),
        act: Act::Add {
            key: Key(key),
            register,
            amount,
        },
    }
}

/// Whether a transaction takes this amount from a row and puts it into another.
fn moves(line: &TxLine, from: (u8, u16), to: (u8, u16), amount: u8) -> bool {
    let amount = u64::from(amount);
    if amount == 0 || line.program.len() != 4 {
        return false;
    }
    *line.program.at(0) == get(from.0, from.1)
        && *line.program.at(1) == add(from.0, from.1, 0, u64::MAX - amount + 1)
        && *line.program.at(2) == get(to.0, to.1)
        && *line.program.at(3) == add(to.0, to.1, 1, amount)
}

#[test]
fn five_makes_three_sites_and_transfers_between_them(rt: HostRuntime) -> Result<(), Fail> {
    let scenario = make(rt.alloc(), 5, 3, 4)?;
    assert_eq!(rt; scenario.sites.len(), 3);
    let first = *scenario.sites.at(0);
    assert_eq!(rt; first.site, SiteId(1));
    assert_eq!(rt; first.engine, Engine::Timestamp);
    assert_eq!(rt; first.protocol, Protocol::Commit);
    let second = *scenario.sites.at(1);
    assert_eq!(rt; second.engine, Engine::Timestamp);
    assert_eq!(rt; second.protocol, Protocol::Abort);
    assert_eq!(rt; scenario.items.len(), 30);
    let last = *scenario.items.at(29);
    assert_eq!(rt; last.site, SiteId(3));
    assert_eq!(rt; last.put.key, Key(9));
    assert_eq!(rt; last.put.value, 100);
    assert_eq!(rt; scenario.transactions.len(), 4);
    assert_eq!(rt; scenario.transactions.at(0).home, Some(SiteId(3)));
    assert!(rt; moves(scenario.transactions.at(0), (3, 9), (3, 5), 7));
    assert_eq!(rt; scenario.transactions.at(1).home, None);
    assert!(rt; moves(scenario.transactions.at(1), (1, 8), (2, 1), 4));
    assert_eq!(rt; scenario.transactions.at(2).home, Some(SiteId(3)));
    assert!(rt; moves(scenario.transactions.at(2), (3, 8), (3, 2), 2));
    assert!(rt; moves(scenario.transactions.at(3), (1, 4), (2, 8), 4));
    Ok(())
}

#[test]
fn at_one_site_every_transaction_is_local(rt: HostRuntime) -> Result<(), Fail> {
    let scenario = make(rt.alloc(), 7, 1, 1024)?;
    assert_eq!(rt; scenario.sites.len(), 1);
    assert_eq!(rt; scenario.items.len(), 10);
    assert_eq!(rt; scenario.transactions.len(), 1024);
    assert_eq!(rt; scenario.transactions.at(1023).home, Some(SiteId(1)));
    Ok(())
}
