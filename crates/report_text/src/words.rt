//! Words of a report, with one space before each.
ghost use Rattle.std.specs.Prelude.{◌≡◌, ◌∷◌, ◌++◌, OnOk, map, decimal};
ghost use Rattle.mdb_base.specs.Texts.{tid_text};
ghost use Rattle.report_text.specs.Spelling.{row_text, spaced};

use mdb_base::{Memory, Put, Tid, put_number, put_text, put_tid};

/// Appends a space and an attempt.
pub fn put_next_tid(out: &mut Vec<u8>, tid: Tid) -> Result<(), Memory>
    ensures { OnOk result (out.new.items ≡ out.old.items ++ 32 ∷ tid_text tid) }
{
    put_text(out, " ")?;
    put_tid(out, tid)
}

/// Appends a space and a number.
pub fn put_next_number(out: &mut Vec<u8>, number: u64) -> Result<(), Memory>
    ensures { OnOk result (out.new.items ≡ out.old.items ++ 32 ∷ decimal number) }
{
    put_text(out, " ")?;
    put_number(out, number)
}

fn put_row(out: &mut Vec<u8>, row: Put) -> Result<(), Memory>
    ensures { OnOk result (out.new.items ≡ out.old.items ++ row_text row) }
{
    put_number(out, u64::from(row.key.0))?;
    put_text(out, "=")?;
    put_number(out, row.value)
}

fn put_next_row(out: &mut Vec<u8>, row: Put) -> Result<(), Memory>
    ensures { OnOk result (out.new.items ≡ out.old.items ++ 32 ∷ row_text row) }
{
    put_text(out, " ")?;
    put_row(out, row)
}

/// Appends attempts.
pub fn put_tids(out: &mut Vec<u8>, tids: &[Tid]) -> Result<(), Memory>
    ensures { OnOk result (out.new.items ≡ out.old.items ++ spaced (map tid_text tids.now)) }
{
    for tid in tids {
        put_next_tid(out, *tid)?;
    }
    Ok(())
}

/// Appends values.
pub fn put_values(out: &mut Vec<u8>, values: &[u64]) -> Result<(), Memory>
    ensures { OnOk result (out.new.items ≡ out.old.items ++ spaced (map decimal values.now)) }
{
    for value in values {
        put_next_number(out, *value)?;
    }
    Ok(())
}

/// Appends rows.
pub fn put_rows(out: &mut Vec<u8>, rows: &[Put]) -> Result<(), Memory>
    ensures { OnOk result (out.new.items ≡ out.old.items ++ spaced (map row_text rows.now)) }
{
    for row in rows {
        put_next_row(out, *row)?;
    }
    Ok(())
}
