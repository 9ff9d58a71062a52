//! The programs of the global transactions.
ghost use Rattle.std.specs.Prelude.{◌≡◌, IfOk, OnOk, Some};
ghost use Rattle.std.specs.Option.{option_copied};
ghost use Rattle.std.specs.FinMap.{from_entries, get, insert, remove};
ghost use Rattle.mdb_base.specs.Names.{tx_cmp};
ghost use Rattle.global_manager.specs.Stands.{noted, own_programs, program_at};

use fed_rules::TxLine;
use mdb_base::{Memory, Program, Tx};
use std::alloc::Global;
use std::collections::BTreeMap;

/// The program of the transaction, where it is a global one.
pub(crate) fn find(programs: &BTreeMap<Tx, Program>, tx: Tx) -> Option<&Program>
    ensures { option_copied result ≡ get {R = tx_cmp} (from_entries programs.now.entries) tx }
{
    programs.get(&tx)
}

/// Keeps a program under its transaction, in place of another one.
fn put(programs: &mut BTreeMap<Tx, Program>, tx: Tx, program: Program) -> Result<(), Memory>
    ensures { OnOk result (from_entries {R = tx_cmp} programs.new.entries ≡ insert (from_entries programs.old.entries) tx program) }
{
    programs.insert(tx, program)?;
    Ok(())
}

/// Keeps nothing under the transaction.
fn take_out(programs: &mut BTreeMap<Tx, Program>, tx: Tx)
    ensures { from_entries {R = tx_cmp} programs.new.entries ≡ remove (from_entries programs.old.entries) tx }
{
    programs.remove(&tx);
}

/// Keeps the program of a line, where its transaction is global, and else nothing under its number.
fn note(programs: &mut BTreeMap<Tx, Program>, line: &TxLine) -> Result<(), Memory>
    ensures { OnOk result (from_entries {R = tx_cmp} programs.new.entries ≡ noted line.now.tx (program_at (Some line.now)) (from_entries programs.old.entries)) }
{
    match line.home {
        None => put(programs, line.tx, line.program.clone()?),
        Some(_) => {
            take_out(programs, line.tx);
            Ok(())
        }
    }
}

/// The programs of the global transactions of these lines, of several of one number the first.
pub(crate) fn programs_of(alloc: Global, lines: &[TxLine]) -> Result<BTreeMap<Tx, Program>, Memory>
    ensures { IfOk result (λ programs. (tx : Tx) → get {R = tx_cmp} (from_entries programs.entries) tx ≡ own_programs lines.now tx) }
{
    let mut programs = BTreeMap::new(alloc);
    let mut left = lines.len();
    while left > 0 {
        left -= 1;
        note(&mut programs, &lines[left])?;
    }
    Ok(programs)
}
