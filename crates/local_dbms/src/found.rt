//! The programs of a site whose journal was found.
ghost use Rattle.std.specs.Prelude.{◌≡◌, cond, IfOk, OnOk, Some};
ghost use Rattle.mdb_base.specs.declared.names.Tid.{Tid as TheTid};
ghost use Rattle.mdb_base.specs.declared.names.Tx.{Tx as TheTx};
ghost use Rattle.mdb_base.specs.Names.{same_tx};
ghost use Rattle.mdb_base.specs.Words.{some_of};
ghost use Rattle.local_dbms.specs.Found.{found_programs, has_local, made_up};
ghost use Rattle.local_dbms.specs.Stands.{program_in};

use crate::programs::reach;
use fed_rules::SiteRecord;
use mdb_base::{Act, Key, Memory, Program, SiteId, Step, Tid};
use std::alloc::Global;

/// A program that stands for one that isn't known.
fn made_up(alloc: Global) -> Result<Program, Memory>
    ensures { IfOk result (λ program. program ≡ made_up) }
{
    let steps = [Step {
        site: SiteId(1),
        act: Act::Get(Key(0)),
    }];
    match Program::new(alloc, &steps) {
        Ok(program) => Ok(program),
        Err(_) => Err(Memory),
    }
}

/// Keeps such a program at the number of the attempt's transaction.
fn note_found(alloc: Global, programs: &mut Vec<Option<Program>>, tid: &Tid) -> Result<(), Memory>
    ensures { OnOk result ((other : TheTx) → program_in programs.new.items other ≡ cond (same_tx tid.now.tx other) (Some made_up) (program_in programs.old.items other)) }
{
    reach(programs, tid.tx)?;
    programs[tid.tx.0 as usize] = Some(made_up(alloc)?);
    Ok(())
}

/// And at those of all these attempts.
fn note_tids(alloc: Global, programs: &mut Vec<Option<Program>>, tids: &[Tid]) -> Result<(), Memory>
    ensures { OnOk result ((other : TheTx) → program_in programs.new.items other
        ≡ cond (some_of (λ (tid : TheTid). same_tx tid.tx other) tids.now) (Some made_up) (program_in programs.old.items other)) }
{
    let mut left = tids.len();
    while left > 0 {
        left -= 1;
        note_found(alloc, programs, &tids[left])?;
    }
    Ok(())
}

/// And at those of the local attempts of a record.
fn note_record(
    alloc: Global,
    programs: &mut Vec<Option<Program>>,
    kept: &SiteRecord,
) -> Result<(), Memory>
    ensures { OnOk result ((other : TheTx) → program_in programs.new.items other ≡ cond (has_local other kept.now) (Some made_up) (program_in programs.old.items other)) }
{
    match kept {
        SiteRecord::Local { tid, .. } => note_found(alloc, programs, tid),
        SiteRecord::Checkpoint(sum) => note_tids(alloc, programs, sum.locals.as_slice()),
        _ => Ok(()),
    }
}

/// The programs of the transactions of which these records have a local attempt.
pub(crate) fn programs_found(
    alloc: Global,
    records: &[SiteRecord],
) -> Result<Vec<Option<Program>>, Memory>
    ensures { IfOk result (λ programs. (tx : TheTx) → program_in programs.items tx ≡ found_programs records.now tx) }
{
    let mut programs = Vec::new(alloc);
    let mut left = records.len();
    while left > 0 {
        left -= 1;
        note_record(alloc, &mut programs, &records[left])?;
    }
    Ok(programs)
}
