//! The versions that runs are about to supersede, from the table of a book.
ghost use Rattle.std.specs.Prelude.{◌≡◌, OnOk, OnErr, IfOk};
ghost use Rattle.std.specs.FinMap.{empty};
ghost use Rattle.multiversion_engine.specs.Noted.{with_newest, with_rows, with_written};

use crate::old_versions::{OldVersion, OldVersions};
use fed_rules::Kept;
use mdb_base::{Key, Memory, Put};
use run_book::RunBook;
use std::alloc::Global;

/// Notes the newest version of a key, which a run is about to supersede.
pub(crate) fn note(book: &RunBook, olds: &mut OldVersions, key: Key) -> Result<(), Memory>
    ensures noted { OnOk result (olds.new ≡ with_newest book.now.book key olds.old) }
    ensures memory { OnErr result (olds.new ≡ olds.old) }
{
    let newest = OldVersion {
        number: book.number(key),
        value: book.value(key),
    };
    olds.note(key, newest)
}

/// Notes the newest versions of the keys of these rows.
fn note_rows(book: &RunBook, olds: &mut OldVersions, rows: &[Put]) -> Result<(), Memory>
    ensures { OnOk result (olds.new ≡ with_rows book.now.book rows.now olds.old) }
{
    for row in rows {
        note(book, olds, row.key)?;
    }
    Ok(())
}

/// The newest versions of the keys that the transactions in doubt wrote.
pub(crate) fn noted_of(
    alloc: Global,
    book: &RunBook,
    doubtful: &[Kept],
) -> Result<OldVersions, Memory>
    ensures { IfOk result (λ olds. olds ≡ with_written book.now.book doubtful.now empty) }
{
    let mut olds = OldVersions::new(alloc);
    for kept in doubtful {
        note_rows(book, &mut olds, kept.writes.as_slice())?;
    }
    Ok(olds)
}
