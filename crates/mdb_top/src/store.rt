//! The top call over a store: the disks are opened, and then the words are carried out on them.
ghost use Rattle.std.specs.Prelude.{◌≡◌, ◌<◌, ◌≤◌, ◌↔◌, ◌⊎◌, [], ◌∷◌, IsTrue, OnOk, OnErr, IsErrOf, None, Some, length, map, string_bytes};
ghost use Rattle.order_laws.specs.Chains.{In};
ghost use Rattle.mdb_base.specs.Counts.{HasCauseOf};
ghost use Rattle.file_disks.specs.Stores.{IsLarge, journal_of};
ghost use Rattle.scenario_text.specs.Texts.{session_of};
ghost use Rattle.mdb_top.specs.declared.words.Job.TheVariants as asks;
ghost use Rattle.mdb_top.specs.Endings.{Ends};
ghost use Rattle.mdb_top.specs.Inputs.{SomeInput};
ghost use Rattle.mdb_top.specs.Opening.{Opens, SomeOpened, StopsAtOne, store_seen};
ghost use Rattle.mdb_top.specs.Resuming.{ResumeEnds};
ghost use Rattle.session_outputs.specs.Replays.{replaying};
ghost use Rattle.outputs.specs.Texts.{disk_failed_text};
ghost use Rattle.mdb_top.specs.Streams.{Gets, stream};
ghost use Rattle.mdb_top.specs.Texts as texts;
ghost use Rattle.mdb_top.specs.Verdicts as verdicts;

use crate::streams::{Sink, Source};
use crate::telling::{named, put_usage, told};
use crate::top_call::federate;
use crate::words::names_folder;
use federation_run::Gate;
use file_disks::{OpenErr, Store};
use journal_disk::Disk;
use std::alloc::Global;
use std::sync::Wait;
use std::thread::Threads;

/// How many actors there are: the coordinator, and eight sites.
const ACTORS: u8 = 9;

/// Opens the disks in their order, up to the first that isn't opened.
fn open_all<D: Disk, T: Store<D>>(store: &mut T, disks: &mut Vec<D>) -> Result<(), OpenErr>
    requires told { IsTrue D.tells }
    requires empty { disks.old.items ≡ [] }
    ensures opens { Opens T.tells (T.journals store.old) (map D.seen disks.new.items) }
    ensures all { OnOk result (length disks.new.items ≡ 9) }
    ensures few { OnErr result (length disks.new.items < 9) }
    ensures large { IsErrOf result OpenErr.Large → IsTrue T.tells → IsLarge (journal_of (length disks.new.items) (T.journals store.old)) }
    ensures not_large { IsErrOf result OpenErr.Failed → IsTrue T.tells → IsLarge (journal_of (length disks.new.items) (T.journals store.old)) → ⊥ }
    ensures cause { HasCauseOf OpenErr.Failed (T.faults store.old) (T.faults store.new) result }
{
    for number in 0..ACTORS {
        let disk = store.open_disk(number)?;
        disks.push(disk)?;
    }
    Ok(())
}

/// Tells why the disk behind the opened ones wasn't opened.
fn stopped<K: Sink>(alloc: Global, sink: &mut K, why: OpenErr, number: usize) -> u8
    ensures failed { result ≡ 5 → (why ≡ OpenErr.Failed)
        × Gets (stream K.tells (K.written sink.old) (K.written sink.new) (K.faults sink.old) (K.faults sink.new)) (disk_failed_text number) }
    ensures large { result ≡ 12 → (why ≡ OpenErr.Large)
        × Gets (stream K.tells (K.written sink.old) (K.written sink.new) (K.faults sink.old) (K.faults sink.new)) (texts.disk_large_text number) }
    ensures wanting { result ≡ 6 →
        Gets (stream K.tells (K.written sink.old) (K.written sink.new) (K.faults sink.old) (K.faults sink.new)) texts.no_memory_text }
    ensures led { In result (5 ∷ 6 ∷ 12 ∷ []) }
{
    match why {
        OpenErr::Failed => named(alloc, sink, 5, number, " failed"),
        OpenErr::Large => named(alloc, sink, 12, number, " is large"),
        OpenErr::Memory => told(sink, 6, b"no memory\n"),
    }
}

/// Carries out `store FOLDER` or `resume FOLDER` over a store of nine journals: opens the disks 0 to 8 in this order into
/// `disks`, and then does what `federate` does with these words and disks, with its statuses; or answers 5 where the store fails
/// at a disk, 6 where memory is wanting and 12 where a journal has more than 67,108,864 bytes, with the first such
/// disk named. The disks before it stay in `disks`. The status is 1 where the words are no such command. (This
/// project's profile.)
pub fn federate_store<
    R: Threads + Wait + Sync,
    S: Source,
    K: Sink,
    D: Disk + Send,
    T: Store<D>,
    G: Gate + Sync,
>(
    rt: &R,
    alloc: Global,
    words: &[String],
    source: &mut S,
    sink: &mut K,
    store: &mut T,
    disks: &mut Vec<D>,
    gate: &G,
) -> u8
    requires told { IsTrue D.tells }
    requires empty { disks.old.items ≡ [] }

    // Words that are no such command: the usage is told, and nothing is read or opened.
    ensures usage { (result ≡ 1) ↔ (verdicts.asked_of_folder (map string_bytes words.now) ≡ None) }
    ensures usage_text { result ≡ 1 →
        Gets (stream K.tells (K.written sink.old) (K.written sink.new) (K.faults sink.old) (K.faults sink.new)) texts.usage_text }
    ensures untouched { result ≡ 1 → (source.new ≡ source.old) × (store.new ≡ store.old) × (disks.new ≡ disks.old) }

    // Else the disks are opened, up to one that isn't, and nothing is read; or all nine. To store is a replay on them, of one input, which is
    // that of the source where it tells.
    ensures stores { verdicts.asked_of_folder (map string_bytes words.now) ≡ Some asks.Replay →
        ((source.new ≡ source.old) × StopsAtOne result (store_seen T.tells (T.journals store.old) (T.faults store.old) (T.faults store.new))
        (stream K.tells (K.written sink.old) (K.written sink.new) (K.faults sink.old) (K.faults sink.new)) (map D.seen disks.new.items))
        ⊎ SomeOpened result (store_seen T.tells (T.journals store.old) (T.faults store.old) (T.faults store.new)) (map D.seen disks.new.items)
        (λ opened. SomeInput S.tells (S.left source.old) (Ends session_of (replaying D.seen) result
        (stream S.tells (S.left source.old) (S.left source.new) (S.faults source.old) (S.faults source.new))
        (stream K.tells (K.written sink.old) (K.written sink.new) (K.faults sink.old) (K.faults sink.new))
        opened (map D.seen disks.new.items))) }

    // To resume is to go on from what they hold, and nothing is read.
    ensures resumes { verdicts.asked_of_folder (map string_bytes words.now) ≡ Some asks.Resume → (source.new ≡ source.old)
        × (StopsAtOne result (store_seen T.tells (T.journals store.old) (T.faults store.old) (T.faults store.new))
        (stream K.tells (K.written sink.old) (K.written sink.new) (K.faults sink.old) (K.faults sink.new)) (map D.seen disks.new.items)
        ⊎ SomeOpened result (store_seen T.tells (T.journals store.old) (T.faults store.old) (T.faults store.new)) (map D.seen disks.new.items)
        (λ opened. ResumeEnds D.seen result
        (stream K.tells (K.written sink.old) (K.written sink.new) (K.faults sink.old) (K.faults sink.new)) opened (map D.seen disks.new.items))) }
    ensures at_most_nine { length disks.new.items ≤ 9 }
{
    if !names_folder(words) {
        return put_usage(sink);
    }
    match open_all(store, disks) {
        Ok(()) => federate(rt, alloc, words, source, sink, disks, gate),
        Err(why) => stopped(alloc, sink, why, disks.len()),
    }
}
