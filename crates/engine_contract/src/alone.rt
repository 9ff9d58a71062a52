//! One transaction of a single read, run to its end: what each engine's tests call through the bound.
ghost use Rattle.std.specs.Prelude.{◌^◌, ◌<◌, ◌+◌, IfOk, IfErr, OnErr};
ghost use Rattle.fed_rules.specs.Runs.{Begins, Seals, counter};
ghost use Rattle.fed_rules.specs.EngineLines.{IsFree};
ghost use Rattle.engine_contract.specs.Past.{SomePast, AddsLine, EachPast, KeepsPast};
ghost use Rattle.engine_contract.specs.Calls.{CanBegin, CanSeal, SealsRun, FailsToSeal};

use crate::engine::LocalEngine;
use crate::seal_err::SealErr;
use fed_rules::Sealed;
use mdb_base::{Key, Memory, Reply, Tid};
use std::alloc::Global;

/// Begins a run, takes the begin back, and begins it again. It does what one begin does.
pub fn begin_again<E: LocalEngine>(engine: &mut E, alloc: Global, tid: Tid) -> Result<u64, Memory>
    requires { SomePast E.stands engine.old (CanBegin tid) }
    ensures begun { IfOk result (λ n. AddsLine E.stands engine.old (Begins tid n) engine.new) }
    ensures memory { OnErr result (KeepsPast E.stands engine.old engine.new) }
{
    let _first = engine.begin(alloc, tid)?;
    engine.unbegin(tid);
    engine.begin(alloc, tid)
}

/// Seals a live run, takes the sealing back, and seals it again. It does what one sealing does.
pub fn seal_again<E: LocalEngine>(
    engine: &mut E,
    alloc: Global,
    tid: Tid,
) -> Result<Sealed, SealErr>
    requires { SomePast E.stands engine.old (CanSeal tid) }
    ensures sealed { IfOk result (λ s. AddsLine E.stands engine.old (Seals tid s.number) engine.new) }
    ensures given { IfOk result (λ s. EachPast E.stands engine.old (SealsRun tid s)) }
    ensures failed { IfErr result (λ e. FailsToSeal E.stands engine.old tid e engine.new) }
{
    let _first = engine.seal(alloc, tid)?;
    engine.unseal(tid);
    engine.seal(alloc, tid)
}

/// Ends a live run: by commit, or where its sealing is refused or finds no memory, by abort.
#[tactic(auto, using(crate::proofs::Lets::sealed_commits, crate::proofs::Lets::seal_acts))]
pub fn finish<E: LocalEngine>(engine: &mut E, alloc: Global, tid: Tid) -> Result<(), Memory>
    requires { SomePast E.stands engine.old (CanSeal tid) }
    ensures { SomePast E.stands engine.new (λ start lines. IsFree start lines tid) }
{
    match seal_again(engine, alloc, tid) {
        Ok(_) => engine.commit(tid),
        Err(SealErr::Refused(_)) => {}
        Err(SealErr::Memory) => {
            engine.abort(tid);
            return Err(Memory);
        }
    }
    Ok(())
}

/// Begins a run, reads a key, and ends the run: where the read has to wait, by abort.
#[tactic(auto, using(crate::proofs::Lets::begun_acts))]
pub fn read_alone<E: LocalEngine>(
    engine: &mut E,
    alloc: Global,
    tid: Tid,
    key: Key,
) -> Result<Reply, Memory>
    requires { SomePast E.stands engine.old
        (λ start lines. IsFree start lines tid × (counter start lines + 2 < 2 ^ 64)) }
    ensures { SomePast E.stands engine.new (λ start lines. IsFree start lines tid) }
{
    let _age = begin_again(engine, alloc, tid)?;
    let Ok(reply) = engine.read(alloc, tid, key) else {
        engine.unbegin(tid);
        return Err(Memory);
    };
    match reply {
        Reply::Value(_) => finish(engine, alloc, tid)?,
        Reply::Refused(_) => {}
        _ => engine.abort(tid),
    }
    Ok(reply)
}
