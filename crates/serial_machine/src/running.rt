//! Programs run alone and one after another.
ghost use Rattle.std.specs.Prelude.{◌≡◌, ◌+◌, ◌≤◌, ◌<◌, ◌||◌, is_some, ℕ, Some, List, [], length, take, map, IfOk, OnOk, OnErr};
ghost use Rattle.std.specs.HashMap.{spare};
ghost use Rattle.std.specs.Vec.{vec_capacity};
ghost use Rattle.mdb_base.specs.declared.names.Key.{Key};
ghost use Rattle.mdb_base.specs.declared.names.SiteId.{SiteId};
ghost use Rattle.mdb_base.specs.Words.{some_of};
ghost use Rattle.mdb_base.specs.Programs.{next_of};
ghost use Rattle.mdb_base.specs.declared.acts.Step.{Step};
ghost use Rattle.serial_machine.specs.declared.all_tables.AllTables.{AllTables};
ghost use Rattle.fed_rules.specs.Serial.{alone, serial_reads, serial_tables};
ghost use Rattle.serial_machine.specs.AllTables.{value_at, tables_of, writes_at, SameRows, SameTables};
ghost use Rattle.serial_machine.specs.Runs.{ReachesAlone, one_writes};

use crate::all_tables::AllTables;
use mdb_base::{ListOf, Memory, Next, PlainAct, Program, Put, Values, next_act};
use std::alloc::Global;

/// What each of several programs read, in their order.
pub type Reads = ListOf<Values>;

/// Carries out one step, for whose read or write there is room.
fn take_step(next: Next, tables: &mut AllTables, reads: &mut Vec<u64>)
    requires reads { length reads.old.items < vec_capacity reads.old }
    requires rows { 0 < spare tables.old.values }
    ensures further { (program : List Step) (done : ℕ) (first : AllTables) → ReachesAlone program done first tables.old reads.old.items
        → next_of program done reads.old.items ≡ Some next → ReachesAlone program (done + 1) first tables.new reads.new.items }
    ensures count { length reads.new.items ≤ length reads.old.items + 1 }
    ensures reads { vec_capacity reads.new ≡ vec_capacity reads.old }
    ensures rows { spare tables.old.values ≤ spare tables.new.values + 1 }
{
    match next.act {
        PlainAct::Read(key) => {
            let value = tables.get(next.site, key);
            reads.push_reserved(value);
        }
        PlainAct::Write(key, value) => tables.put(next.site, Put { key, value }),
    }
}

/// Carries out the steps of a program, for whose reads and writes there is room.
fn carry_out(program: &Program, tables: &mut AllTables, reads: &mut Vec<u64>)
    requires unread { reads.old.items ≡ [] }
    requires reads { length program.now ≤ vec_capacity reads.old }
    requires rows { length program.now ≤ spare tables.old.values }
    ensures ran { ReachesAlone program.now (length program.now) tables.old tables.new reads.new.items }
{
    for done in 0..program.len() {
        if let Some(next) = next_act(program, done, reads) {
            take_step(next, tables, reads);
        }
    }
}

/// Carries out the steps of a program in their order, with nothing else running, and answers the values that it read. Without
/// memory the tables stay as they were.
pub fn run_alone(alloc: Global, program: &Program, tables: &mut AllTables) -> Result<Values, Memory>
    ensures reads { IfOk result (λ values. values ≡ (alone program.now (tables_of tables.old)).reads) }
    ensures tables { OnOk result (SameTables (alone program.now (tables_of tables.old)).tables (tables_of tables.new)) }
    ensures rows { OnOk result ((site : SiteId) (key : Key) → is_some (value_at tables.new site key)
        ≡ (is_some (value_at tables.old site key) || some_of (writes_at site key) program.now)) }
    ensures memory { OnErr result (SameRows tables.old tables.new) }
{
    let mut reads = Vec::with_capacity(alloc, program.len())?;
    tables.reserve(program.len())?;
    carry_out(program, tables, &mut reads);
    Ok(Values::of(reads))
}

/// Carries out programs one after another, and answers what each of them read. Without memory the tables hold the programs that
/// were finished.
pub fn run_serial(
    alloc: Global,
    programs: &[Program],
    tables: &mut AllTables,
) -> Result<Reads, Memory>
    ensures reads { IfOk result (λ reads. reads ≡ serial_reads programs.now (tables_of tables.old)) }
    ensures tables { OnOk result (SameTables (serial_tables programs.now (tables_of tables.old)) (tables_of tables.new)) }
    ensures rows { OnOk result ((site : SiteId) (key : Key) → is_some (value_at tables.new site key)
        ≡ (is_some (value_at tables.old site key) || one_writes site key programs.now)) }
    ensures memory { OnErr result ((done : ℕ) × (done ≤ length programs.now)
        × SameTables (serial_tables (take done programs.now) (tables_of tables.old)) (tables_of tables.new)) }
{
    let mut reads = Vec::with_capacity(alloc, programs.len())?;
    for program in programs {
        reads.push_reserved(run_alone(alloc, program, tables)?);
    }
    Ok(Reads::of(reads))
}
