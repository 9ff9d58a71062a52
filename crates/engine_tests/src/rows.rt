//! Worked rows: calls of an engine of each rule with the answers that they must have.
ghost use Rattle.std.specs.Prelude.{IfOk, OnOk};
ghost use Rattle.engine_contract.specs.Past.{SomePast};
ghost use Rattle.engine_tests.specs.Stages.{Agrees, IsFresh};
ghost use Rattle.any_engine.specs.Stands.{Stands};

use crate::watched::{Answer, Call, Watched};
use any_engine::AnyEngine;
use engine_contract::{LocalEngine, read_alone};
use mdb_base::{Engine, Key, Memory, PlainAct, Put, Puts, Reply, Tid, Tx, Why};
use std::alloc::Global;
use std::process::Abort;
use std::test::Fail;

const LOW: Key = Key(3);

const KEY: Key = Key(5);

const FIRST: Tid = Tid {
    tx: Tx(1),
    attempt: 0,
};

const FIRST_AGAIN: Tid = Tid {
    tx: Tx(1),
    attempt: 1,
};

const SECOND: Tid = Tid {
    tx: Tx(2),
    attempt: 0,
};

const SECOND_AGAIN: Tid = Tid {
    tx: Tx(2),
    attempt: 1,
};

const THIRD: Tid = Tid {
    tx: Tx(3),
    attempt: 0,
};

/// A call for an attempt, with what it must answer.
#[derive(Clone, Copy)]
enum Row {
    Begin(Tid, u64),
    Read(Tid, Reply),
    Write(Tid, Key, u64, Reply),
    Take(Tid, Reply),
    Seal(Tid, u64, Option<u64>),
    Refuse(Tid, Why),
    Commit(Tid),
    Abort(Tid),
}

/// The call of a row, and its answer.
fn told(row: Row) -> (Tid, Call, Answer) {
    match row {
        Row::Begin(tid, number) => (tid, Call::Begin, Answer::Number(number)),
        Row::Read(tid, reply) => (tid, Call::Access(PlainAct::Read(KEY)), Answer::Says(reply)),
        Row::Write(tid, key, value, reply) => (
            tid,
            Call::Access(PlainAct::Write(key, value)),
            Answer::Says(reply),
        ),
        Row::Take(tid, reply) => (tid, Call::Take, Answer::Says(reply)),
        Row::Seal(tid, number, ticket) => (tid, Call::Seal, Answer::Sealed(number, ticket)),
        Row::Refuse(tid, why) => (tid, Call::Seal, Answer::Refused(why)),
        Row::Commit(tid) => (tid, Call::Commit, Answer::Ended),
        Row::Abort(tid) => (tid, Call::Abort, Answer::Ended),
    }
}

/// The engine of a new site with these rows.
fn new_engine(alloc: Global, kind: Engine, rows: &Puts) -> Result<AnyEngine, Memory>
    ensures { IfOk result (λ engine. SomePast Stands engine IsFresh) }
{
    AnyEngine::new(alloc, kind, rows)
}

/// Makes these calls.
fn play<E: LocalEngine>(
    rt: &impl Abort,
    alloc: Global,
    watched: &mut Watched<E>,
    rows: &[Row],
) -> Result<(), Fail>
    requires { SomePast E.stands watched.old.engine (Agrees watched.old.notes.items watched.old.counter watched.old.published) }
    ensures { OnOk result (SomePast E.stands watched.new.engine
        (Agrees watched.new.notes.items watched.new.counter watched.new.published)) }
{
    for (place, row) in rows.iter().enumerate() {
        let (tid, call, answer) = told(*row);
        let made = watched.make(rt, alloc, tid, call)?;
        assert!(rt; made == answer, "row {place}");
    }
    Ok(())
}

/// Makes these calls, and compares the rows that they leave.
fn play_to<E: LocalEngine>(
    rt: &impl Abort,
    alloc: Global,
    watched: &mut Watched<E>,
    rows: &[Row],
    left: &[Put],
) -> Result<(), Fail>
    requires { SomePast E.stands watched.old.engine (Agrees watched.old.notes.items watched.old.counter watched.old.published) }
{
    play(rt, alloc, watched, rows)?;
    let now = watched.rows(alloc)?;
    assert!(rt; now.as_slice() == left);
    Ok(())
}

/// Does so with the engine of a new site without rows.
fn played(
    rt: &(impl Abort + AllocGlobal),
    kind: Engine,
    rows: &[Row],
    left: &[Put],
) -> Result<(), Fail> {
    let alloc = rt.alloc();
    let none = Puts::of(Vec::new(alloc));
    let mut watched = Watched::new(alloc, new_engine(alloc, kind, &none)?);
    let end = play_to(rt, alloc, &mut watched, rows, left);
    drop(watched);
    end
}

const DIES: [Row; 14] = [
    Row::Begin(FIRST, 1),
    Row::Begin(SECOND, 2),
    Row::Write(SECOND, LOW, 3, Reply::Done),
    Row::Write(FIRST, LOW, 1, Reply::Wait { by: SECOND }),
    Row::Take(FIRST, Reply::Ticket(1)),
    Row::Write(FIRST, KEY, 1, Reply::Done),
    Row::Write(SECOND, KEY, 2, Reply::Refused(Why::Die { by: FIRST })),
    Row::Begin(SECOND_AGAIN, 3),
    Row::Seal(FIRST, 4, Some(1)),
    Row::Read(SECOND_AGAIN, Reply::Refused(Why::Die { by: FIRST })),
    Row::Commit(FIRST),
    Row::Begin(THIRD, 5),
    Row::Read(THIRD, Reply::Value(1)),
    Row::Abort(THIRD),
];

#[test]
fn in_locking_the_younger_dies_and_the_older_waits(rt: HostRuntime) -> Result<(), Fail> {
    played(&rt, Engine::Locking, &DIES, &[Put { key: KEY, value: 1 }])
}

const LATE: [Row; 17] = [
    Row::Begin(FIRST, 1),
    Row::Begin(SECOND, 2),
    Row::Begin(THIRD, 3),
    Row::Take(SECOND, Reply::Ticket(1)),
    Row::Write(SECOND, KEY, 9, Reply::Done),
    Row::Read(THIRD, Reply::Wait { by: SECOND }),
    Row::Read(FIRST, Reply::Refused(Why::Late { by: SECOND })),
    Row::Seal(SECOND, 2, Some(1)),
    Row::Commit(SECOND),
    Row::Read(THIRD, Reply::Value(9)),
    Row::Begin(FIRST_AGAIN, 4),
    Row::Take(FIRST_AGAIN, Reply::Ticket(2)),
    Row::Take(THIRD, Reply::Refused(Why::Late { by: FIRST_AGAIN })),
    Row::Read(FIRST_AGAIN, Reply::Value(9)),
    Row::Write(FIRST_AGAIN, KEY, 8, Reply::Done),
    Row::Seal(FIRST_AGAIN, 4, Some(2)),
    Row::Commit(FIRST_AGAIN),
];

#[test]
fn in_timestamp_order_the_older_is_late_and_the_younger_waits(rt: HostRuntime) -> Result<(), Fail> {
    played(&rt, Engine::Timestamp, &LATE, &[Put { key: KEY, value: 8 }])
}

const INVALID: [Row; 15] = [
    Row::Begin(FIRST, 1),
    Row::Read(FIRST, Reply::Value(0)),
    Row::Begin(SECOND, 2),
    Row::Take(SECOND, Reply::Ticket(1)),
    Row::Write(SECOND, KEY, 9, Reply::Done),
    Row::Seal(SECOND, 3, Some(1)),
    Row::Commit(SECOND),
    Row::Refuse(
        FIRST,
        Why::Invalid {
            by: SECOND,
            key: KEY,
        },
    ),
    Row::Begin(FIRST_AGAIN, 4),
    Row::Take(FIRST_AGAIN, Reply::Ticket(2)),
    Row::Begin(THIRD, 5),
    Row::Take(THIRD, Reply::Ticket(2)),
    Row::Seal(THIRD, 6, Some(2)),
    Row::Refuse(FIRST_AGAIN, Why::TicketMoved { by: THIRD }),
    Row::Abort(THIRD),
];

#[test]
fn in_validation_an_old_read_and_a_moved_ticket_are_refused(rt: HostRuntime) -> Result<(), Fail> {
    played(
        &rt,
        Engine::Validation,
        &INVALID,
        &[Put { key: KEY, value: 9 }],
    )
}

const OLD_VERSION: [Row; 15] = [
    Row::Begin(FIRST, 1),
    Row::Begin(SECOND, 2),
    Row::Begin(THIRD, 3),
    Row::Write(SECOND, KEY, 9, Reply::Done),
    Row::Read(THIRD, Reply::Wait { by: SECOND }),
    Row::Read(FIRST, Reply::Value(0)),
    Row::Seal(SECOND, 2, None),
    Row::Commit(SECOND),
    Row::Read(THIRD, Reply::Value(9)),
    Row::Seal(THIRD, 3, None),
    Row::Commit(THIRD),
    Row::Read(FIRST, Reply::Value(0)),
    Row::Write(FIRST, LOW, 1, Reply::Done),
    Row::Write(FIRST, KEY, 1, Reply::Refused(Why::Late { by: THIRD })),
    Row::Begin(FIRST_AGAIN, 4),
];

#[test]
fn in_multiversion_order_an_old_run_reads_the_version_of_its_age(
    rt: HostRuntime,
) -> Result<(), Fail> {
    played(
        &rt,
        Engine::Multiversion,
        &OLD_VERSION,
        &[Put { key: KEY, value: 9 }],
    )
}

#[test]
fn a_run_of_a_single_read_reads_the_table(rt: HostRuntime) -> Result<(), Fail> {
    let none = Puts::of(Vec::new(rt.alloc()));
    let mut engine = new_engine(rt.alloc(), Engine::Locking, &none)?;
    let reply = read_alone(&mut engine, rt.alloc(), FIRST, KEY);
    drop(engine);
    assert!(rt; reply? == Reply::Value(0));
    Ok(())
}
