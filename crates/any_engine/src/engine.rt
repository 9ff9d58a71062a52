//! The engine of a site, whatever its rule.
use engine_contract::{Kept, LocalEngine, SealErr, Sealed};
use locking_engine::LockingEngine;
use mdb_base::{Engine, Key, Memory, Puts, Reply, Tid};
use multiversion_engine::MultiversionEngine;
use std::alloc::Global;
use timestamp_engine::TimestampEngine;
use validation_engine::ValidationEngine;

/// A local engine of one of the rules: each call is that of the engine that it is.
#[derive(Drop)]
pub enum AnyEngine {
    /// Strict two-phase locking (Bernstein, Hadzilacos, Goodman 1987).
    Locking(LockingEngine),
    /// Strict timestamp order (Bernstein, Hadzilacos, Goodman 1987).
    Timestamp(TimestampEngine),
    /// Backward validation (Härder 1984).
    Validation(ValidationEngine),
    /// Multiversion timestamp order with strict writes (Bernstein, Hadzilacos, Goodman 1987).
    Multiversion(MultiversionEngine),
}

impl AnyEngine {
    ghost use Rattle.std.specs.Prelude.{[], IfOk};
    ghost use Rattle.engine_contract.specs.Calls.{fresh_start};
    ghost use Rattle.any_engine.specs.Stands.{Stands};

    /// An engine of this kind at a new site with these rows.
    pub fn new(alloc: Global, kind: Engine, rows: &Puts) -> Result<Self, Memory>
        ensures { IfOk result (λ engine. Stands engine (fresh_start kind rows.now) []) }
    {
        match kind {
            Engine::Locking => Ok(AnyEngine::Locking(LockingEngine::new(alloc, rows)?)),
            Engine::Timestamp => Ok(AnyEngine::Timestamp(TimestampEngine::new(alloc, rows)?)),
            Engine::Validation => Ok(AnyEngine::Validation(ValidationEngine::new(alloc, rows)?)),
            Engine::Multiversion => Ok(AnyEngine::Multiversion(MultiversionEngine::new(
                alloc, rows,
            )?)),
        }
    }
}

impl LocalEngine for AnyEngine {
    ghost use Rattle.any_engine.specs.Stands.{Stands, kind_of, stood_kind, stood_start, stood_right};

    ghost kind = { kind_of };

    ghost stands = { Stands };

    ghost of_kind = { stood_kind };

    ghost starts = { stood_start };

    ghost right = { stood_right };

    fn begin(&mut self, alloc: Global, tid: Tid) -> Result<u64, Memory> {
        match self {
            AnyEngine::Locking(engine) => engine.begin(alloc, tid),
            AnyEngine::Timestamp(engine) => engine.begin(alloc, tid),
            AnyEngine::Validation(engine) => engine.begin(alloc, tid),
            AnyEngine::Multiversion(engine) => engine.begin(alloc, tid),
        }
    }

    fn read(&mut self, alloc: Global, tid: Tid, key: Key) -> Result<Reply, Memory> {
        match self {
            AnyEngine::Locking(engine) => engine.read(alloc, tid, key),
            AnyEngine::Timestamp(engine) => engine.read(alloc, tid, key),
            AnyEngine::Validation(engine) => engine.read(alloc, tid, key),
            AnyEngine::Multiversion(engine) => engine.read(alloc, tid, key),
        }
    }

    fn write(&mut self, alloc: Global, tid: Tid, key: Key, value: u64) -> Result<Reply, Memory> {
        match self {
            AnyEngine::Locking(engine) => engine.write(alloc, tid, key, value),
            AnyEngine::Timestamp(engine) => engine.write(alloc, tid, key, value),
            AnyEngine::Validation(engine) => engine.write(alloc, tid, key, value),
            AnyEngine::Multiversion(engine) => engine.write(alloc, tid, key, value),
        }
    }

    fn take(&mut self, alloc: Global, tid: Tid) -> Result<Reply, Memory> {
        match self {
            AnyEngine::Locking(engine) => engine.take(alloc, tid),
            AnyEngine::Timestamp(engine) => engine.take(alloc, tid),
            AnyEngine::Validation(engine) => engine.take(alloc, tid),
            AnyEngine::Multiversion(engine) => engine.take(alloc, tid),
        }
    }

    fn seal(&mut self, alloc: Global, tid: Tid) -> Result<Sealed, SealErr> {
        match self {
            AnyEngine::Locking(engine) => engine.seal(alloc, tid),
            AnyEngine::Timestamp(engine) => engine.seal(alloc, tid),
            AnyEngine::Validation(engine) => engine.seal(alloc, tid),
            AnyEngine::Multiversion(engine) => engine.seal(alloc, tid),
        }
    }

    fn unbegin(&mut self, tid: Tid) {
        match self {
            AnyEngine::Locking(engine) => engine.unbegin(tid),
            AnyEngine::Timestamp(engine) => engine.unbegin(tid),
            AnyEngine::Validation(engine) => engine.unbegin(tid),
            AnyEngine::Multiversion(engine) => engine.unbegin(tid),
        }
    }

    fn unseal(&mut self, tid: Tid) {
        match self {
            AnyEngine::Locking(engine) => engine.unseal(tid),
            AnyEngine::Timestamp(engine) => engine.unseal(tid),
            AnyEngine::Validation(engine) => engine.unseal(tid),
            AnyEngine::Multiversion(engine) => engine.unseal(tid),
        }
    }

    fn commit(&mut self, tid: Tid) {
        match self {
            AnyEngine::Locking(engine) => engine.commit(tid),
            AnyEngine::Timestamp(engine) => engine.commit(tid),
            AnyEngine::Validation(engine) => engine.commit(tid),
            AnyEngine::Multiversion(engine) => engine.commit(tid),
        }
    }

    fn abort(&mut self, tid: Tid) {
        match self {
            AnyEngine::Locking(engine) => engine.abort(tid),
            AnyEngine::Timestamp(engine) => engine.abort(tid),
            AnyEngine::Validation(engine) => engine.abort(tid),
            AnyEngine::Multiversion(engine) => engine.abort(tid),
        }
    }

    fn restart(
        &mut self,
        alloc: Global,
        rows: &Puts,
        doubtful: &[Kept],
        counter: u64,
        published: u64,
        owner: Option<Tid>,
    ) -> Result<(), Memory> {
        match self {
            AnyEngine::Locking(engine) => engine.restart(
                alloc, rows, doubtful, counter, published, owner,
            ),
            AnyEngine::Timestamp(engine) => engine.restart(
                alloc, rows, doubtful, counter, published, owner,
            ),
            AnyEngine::Validation(engine) => engine.restart(
                alloc, rows, doubtful, counter, published, owner,
            ),
            AnyEngine::Multiversion(engine) => engine.restart(
                alloc, rows, doubtful, counter, published, owner,
            ),
        }
    }

    fn rows(&self, alloc: Global) -> Result<Puts, Memory> {
        match self {
            AnyEngine::Locking(engine) => engine.rows(alloc),
            AnyEngine::Timestamp(engine) => engine.rows(alloc),
            AnyEngine::Validation(engine) => engine.rows(alloc),
            AnyEngine::Multiversion(engine) => engine.rows(alloc),
        }
    }
}
