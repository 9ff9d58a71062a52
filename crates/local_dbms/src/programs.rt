//! The programs of a site's local transactions, and the plain act of a step.
ghost use Rattle.std.specs.Prelude.{◌≡◌, ◌<◌, IfOk, OnOk, Some, length, slice_index};
ghost use Rattle.std.specs.Option.{option_copied};
ghost use Rattle.mdb_base.specs.Programs.{plain_act};
ghost use Rattle.mdb_base.specs.declared.names.Tx.{Tx as TheTx};
ghost use Rattle.local_dbms.specs.Stands.{AreOwn, noted, program_at, program_in};

use fed_rules::TxLine;
use mdb_base::{Act, Memory, PlainAct, Program, SiteId, Tx};
use std::alloc::Global;

/// The value at this place among the values that were read, and 0 behind them.
fn read_at(reads: &[u64], register: u8) -> u64
    ensures { result ≡ slice_index reads.now register }
{
    match reads.get(register as usize) {
        Some(value) => *value,
        None => 0,
    }
}

/// An act with its register filled in from the values that were read; the register of a program is always one of them.
pub(crate) fn plain(act: Act, reads: &[u64]) -> PlainAct
    ensures { result ≡ plain_act reads.now act }
{
    match act {
        Act::Get(key) => PlainAct::Read(key),
        Act::Set(key, value) => PlainAct::Write(key, value),
        Act::Add {
            key,
            register,
            amount,
        } => PlainAct::Write(key, read_at(reads, register).wrapping_add(amount)),
    }
}

/// Makes the list reach to the number of a transaction. What stands in it stays.
pub(crate) fn reach(programs: &mut Vec<Option<Program>>, tx: Tx) -> Result<(), Memory>
    ensures reached { OnOk result (tx.0 < length programs.new.items) }
    ensures same { OnOk result ((other : TheTx) → program_in programs.new.items other ≡ program_in programs.old.items other) }
{
    while programs.len() <= tx.0 as usize {
        programs.push(None)?;
    }
    Ok(())
}

/// The program of the transaction, where it is one of these.
pub(crate) fn find(programs: &Vec<Option<Program>>, tx: Tx) -> Option<&Program>
    ensures { option_copied result ≡ program_in programs.now.items tx }
{
    match programs.get(tx.0 as usize) {
        Some(Some(program)) => Some(program),
        _ => None,
    }
}

/// The program of a line, where its transaction is local at this site.
fn own_program(site: SiteId, line: &TxLine) -> Result<Option<Program>, Memory>
    ensures { IfOk result (λ program. program ≡ program_at site (Some line.now)) }
{
    match line.home {
        Some(home) if home.0 == site.0 => Ok(Some(line.program.clone()?)),
        _ => Ok(None),
    }
}

/// Keeps the program of a line at its number, where its transaction is local at this site, and else nothing.
fn note(programs: &mut Vec<Option<Program>>, site: SiteId, line: &TxLine) -> Result<(), Memory>
    ensures { OnOk result ((tx : TheTx) → program_in programs.new.items tx ≡ noted site line.now programs.old.items tx) }
{
    reach(programs, line.tx)?;
    programs[line.tx.0 as usize] = own_program(site, line)?;
    Ok(())
}

/// The programs of a site's own transactions by these lines, of several of one number the first.
pub(crate) fn programs_of(
    alloc: Global,
    site: SiteId,
    lines: &[TxLine],
) -> Result<Vec<Option<Program>>, Memory>
    ensures { IfOk result (λ programs. AreOwn site lines.now programs.items) }
{
    let mut programs = Vec::new(alloc);
    let mut left = lines.len();
    while left > 0 {
        left -= 1;
        note(&mut programs, site, &lines[left])?;
    }
    Ok(programs)
}
