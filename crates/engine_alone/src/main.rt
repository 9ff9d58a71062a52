//! A local engine without a site: a transaction of its own writes a key, and the table is printed.
//!
//! An engine stands for the list of its calls with their answers. Each call asks that it may come there, and adds its line.
#![tactic(auto)]

ghost use Rattle.std.specs.Prelude.{◌^◌, ◌<◌, ◌+◌};
ghost use Rattle.fed_rules.specs.EngineLines.{IsFree};
ghost use Rattle.fed_rules.specs.Runs.{counter};
ghost use Rattle.engine_contract.specs.Past.{SomePast};

use engine_contract::{LocalEngine, finish};
use locking_engine::LockingEngine;
use mdb_base::{Key, Memory, Put, Puts, Reply, Tid, Tx, put_number};
use std::alloc::Global;
use std::io::Write;
use std::process::ExitCode;

/// Runs a transaction that writes one key, to its end: by commit, or where the engine refuses it or lets it wait, by abort.
#[tactic(auto, using(engine_contract::proofs::ForCallers::begun_acts, engine_contract::proofs::ForCallers::act_aborts))]
fn write_alone<E: LocalEngine>(
    engine: &mut E,
    alloc: Global,
    tid: Tid,
    put: Put,
) -> Result<Reply, Memory>
    requires { SomePast E.stands engine.old (λ start lines. IsFree start lines tid × (counter start lines + 2 < 2 ^ 64)) }
    ensures { SomePast E.stands engine.new (λ start lines. IsFree start lines tid) }
{
    let _age = engine.begin(alloc, tid)?;
    let Ok(reply) = engine.write(alloc, tid, put.key, put.value) else {
        engine.unbegin(tid);
        return Err(Memory);
    };
    match reply {
        Reply::Done => finish(engine, alloc, tid)?,
        Reply::Refused(_) => {}
        _ => engine.abort(tid),
    }
    Ok(reply)
}

/// The rows as text, a line each.
fn text_of(alloc: Global, rows: &Puts) -> Result<Vec<u8>, Memory> {
    let mut text = Vec::new(alloc);
    for row in rows.as_slice() {
        put_number(&mut text, u64::from(row.key.0))?;
        text.push(b'=')?;
        put_number(&mut text, row.value)?;
        text.push(b'\n')?;
    }
    Ok(text)
}

/// Key 10 has 500 to begin with; a transaction makes it 400.
fn table(alloc: Global) -> Result<Vec<u8>, Memory> {
    let key = Key(10);
    let rows = Puts::of(vec![in alloc; Put { key, value: 500 }]?);
    let mut engine = LockingEngine::new(alloc, &rows)?;
    let tid = Tid {
        tx: Tx(1),
        attempt: 0,
    };
    let _reply = write_alone(&mut engine, alloc, tid, Put { key, value: 400 })?;
    let left = engine.rows(alloc)?;
    text_of(alloc, &left)
}

fn main(rt: HostRuntime) -> ExitCode {
    let Ok(text) = table(rt.alloc()) else {
        return ExitCode::from(6);
    };
    let mut out = rt.stdout();
    match out.write_all(&text) {
        Ok(()) => ExitCode::from(0),
        Err(_) => ExitCode::from(4),
    }
}
