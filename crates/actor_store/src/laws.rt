//! What holds of a new store.
ghost use Rattle.std.specs.Prelude.{◌≡◌, Bool, None, IsTrue, length};
ghost use Rattle.fed_rules.specs.Disk.{empty_disk};
ghost use Rattle.journal_disk.specs.Disk.{Seen, IsSound};
ghost use Rattle.frame_journal.specs.Journal.{new_journal};
ghost use Rattle.actor_store.specs.Store.{Keeps};
ghost use Rattle.actor_store.specs.declared.store.Standing.TheVariants.{Up};

use frame_journal::Format;

/// A new store stands for the empty disk of the rules, and no trip is set.
pub fn a_new_store_is_that_of_an_empty_disk<R, F: Format<R>>()
    ensures { (tells : Bool) (seen : Seen) → IsTrue tells → seen.size ≡ 0 → length seen.image.bytes ≡ seen.size → IsSound seen.image
        → Keeps F.spelling F.is_record F.frame_bytes tells seen (record { journal = new_journal; trip = None; standing = Up }) empty_disk None }
{}
