//! Nine disks have one answer, and what goes on from short ones begins with few lines.
ghost use Rattle.std.specs.Prelude.{◌≡◌, ℕ, List, None, length};
ghost use Rattle.journal_disk.specs.Disk.{Image};
ghost use Rattle.found_disks.specs.declared.reading.Journals.{Journals as TheJournals};
ghost use Rattle.found_disks.specs.Finding.{IsFirstForeign, NamesOf};
ghost use Rattle.found_disks.specs.FoundLines.{FoundSessionsBeginShortly};
ghost use Rattle.found_disks.specs.Reading.{AreRead, IsFirstDamaged};

use found_laws::found_lines_are_few;

/// Journals are read, or one disk is the first that is damaged, and no other. Those that are read are usable, or one disk is the first that
/// isn't, and no other.
pub fn disks_have_one_answer()
    ensures read_or_damaged { (images : List Image) (journals : TheJournals) (number at : ℕ) → length images ≡ 9 → AreRead images journals → IsFirstDamaged number at images → ⊥ }
    ensures one_damaged { (images : List Image) (number other at place : ℕ) → IsFirstDamaged number at images → IsFirstDamaged other place images → number ≡ other }
    ensures usable_or_foreign { (images : List Image) (journals : TheJournals) (number : ℕ) → AreRead images journals → NamesOf journals None → IsFirstForeign number images → ⊥ }
    ensures one_foreign { (images : List Image) (number other : ℕ) → IsFirstForeign number images → IsFirstForeign other images → number ≡ other }
{}

/// A session that goes on from disks of at most 67,108,864 bytes each begins at its sites with fewer than 2^27 lines, with frames of either
/// version.
pub fn found_sessions_begin_shortly()
    ensures { FoundSessionsBeginShortly }
{
    found_lines_are_few();
}
