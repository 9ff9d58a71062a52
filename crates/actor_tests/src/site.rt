//! A site with two local transactions and a subtransaction on a disk in memory, and what it is asked.
ghost use Rattle.std.specs.Prelude.{◌≡◌, ◌≤◌, ◌+◌, IfOk};
ghost use Rattle.journal_disk.specs.MemDisk.{mem_size};
ghost use Rattle.mdb_base.specs.Words.{Each};
ghost use Rattle.actor_tests.specs.OfLines.{IsOfLines, IsOfThird, IsOwn};

use any_engine::AnyEngine;
use fed_rules::{SiteLine, SiteStep, ToSite, TxLine};
use journal_disk::MemDisk;
use local_dbms::{LocalDbms, SiteAsk, StepErr};
use mdb_base::{Act, Engine, Key, PlainAct, Program, Puts, SiteId, Step, Tid, Tx};
use presumptions::{Decision, Protocol};
use std::alloc::Global;
use std::test::Fail;

const SITE: SiteId = SiteId(1);

const GET_5: Step = Step {
    site: SITE,
    act: Act::Get(Key(5)),
};

const SET_5_TO_7: Step = Step {
    site: SITE,
    act: Act::Set(Key(5), 7),
};

const SET_6_TO_1: Step = Step {
    site: SITE,
    act: Act::Set(Key(6), 1),
};

const THIRD: Tid = Tid {
    tx: Tx(3),
    attempt: 0,
};

/// What the site is asked: its own transactions by their numbers, and messages about a first attempt of transaction 3.
#[derive(Clone, Copy)]
pub(super) enum Deed {
    Begin(u32),
    Step(u32),
    Commit(u32),
    Work,
    Take,
    Prepare,
    Decide(Decision),
    Halt,
    Back,
    Check,
}

fn ask_of(deed: Deed) -> SiteAsk
    ensures { IsOfThird result }
{
    match deed {
        Deed::Begin(tx) => SiteAsk::Begin(Tx(tx)),
        Deed::Step(tx) => SiteAsk::Step(Tx(tx)),
        Deed::Commit(tx) => SiteAsk::Commit(Tx(tx)),
        Deed::Work => SiteAsk::Give(ToSite::Work {
            tid: THIRD,
            epoch: 0,
            n: 0,
            act: PlainAct::Write(Key(7), 3),
        }),
        Deed::Take => SiteAsk::Give(ToSite::Take {
            tid: THIRD,
            epoch: 1,
            n: 1,
        }),
        Deed::Prepare => SiteAsk::Give(ToSite::Prepare {
            tid: THIRD,
            epoch: 1,
            n: 2,
        }),
        Deed::Decide(decision) => SiteAsk::Give(ToSite::Decide {
            tid: THIRD,
            decision,
        }),
        Deed::Halt => SiteAsk::Halt { cut: 0 },
        Deed::Back => SiteAsk::Back,
        Deed::Check => SiteAsk::Check,
    }
}

/// A site that stands for at most so many lines is asked this. It then stands for at most two more, also where it fails: what a failed disk call
/// leaves is a trip or a halt and a stopped line.
pub(super) fn asks(
    dbms: &mut LocalDbms<AnyEngine>,
    alloc: Global,
    disk: &mut MemDisk,
    lines: u32,
    deed: Deed,
) -> Result<SiteStep, StepErr>
    requires few { lines ≤ 30000 }
    requires stood { IsOfLines lines dbms.old disk.old }
    ensures { IsOfLines (lines + 2) dbms.new disk.new }
{
    dbms.ask(alloc, disk, ask_of(deed))
}

// A new site 1 with no rows and these local transactions, on this empty disk.
fn site_of(
    alloc: Global,
    disk: &mut MemDisk,
    engine: Engine,
    transactions: &[TxLine],
) -> Result<LocalDbms<AnyEngine>, StepErr>
    requires empty { mem_size disk.old ≡ 0 }
    requires named { Each IsOwn transactions.now }
    ensures { IfOk result (λ dbms. IsOfLines 0 dbms disk.new) }
{
    let items = Puts::of(Vec::new(alloc));
    let line = SiteLine {
        site: SITE,
        engine,
        protocol: Protocol::Nothing,
    };
    let local = AnyEngine::new(alloc, engine, &items)?;
    LocalDbms::set_up(alloc, disk, line, items, local, transactions)
}

// The line of a local transaction of site 1.
fn local_line(alloc: Global, tx: Tx, steps: &[Step]) -> Result<TxLine, Fail>
    ensures { IfOk result (λ line. line.tx ≡ tx) }
{
    let program = Program::new(alloc, steps)?;
    Ok(TxLine {
        tx,
        home: Some(SITE),
        program,
    })
}

/// A new site 1 on this empty disk, with a transaction 1 that sets key 5 to 7, and a transaction 2 that reads it and sets key 6 to 1.
pub(super) fn local_site(
    alloc: Global,
    disk: &mut MemDisk,
    engine: Engine,
) -> Result<LocalDbms<AnyEngine>, Fail>
    requires { mem_size disk.old ≡ 0 }
    ensures { IfOk result (λ dbms. IsOfLines 0 dbms disk.new) }
{
    let transactions = [
        local_line(alloc, Tx(1), &[SET_5_TO_7])?,
        local_line(alloc, Tx(2), &[GET_5, SET_6_TO_1])?,
    ];
    let dbms = site_of(alloc, disk, engine, &transactions)?;
    Ok(dbms)
}
