//! The top call.
ghost use Rattle.std.specs.Prelude.{◌≡◌, ◌↔◌, [], ◌∷◌, IsTrue, Some, None, length, map, string_bytes};
ghost use Rattle.order_laws.specs.Chains.{In};
ghost use Rattle.scenario_text.specs.Kept.{AreCommands};
ghost use Rattle.scenario_text.specs.Texts.{scenario_of, session_of};
ghost use Rattle.world_recovery.specs.Reopening.{AreSynced};
ghost use Rattle.found_disks.specs.Reading.{images_of};
ghost use Rattle.session_outputs.specs.declared.making.Making.{Making as TheMaking};
ghost use Rattle.session_outputs.specs.Makes as makes;
ghost use Rattle.session_outputs.specs.Makes.{IsMakeable};
ghost use Rattle.session_outputs.specs.Replays.{replaying};
ghost use Rattle.session_outputs.specs.Runs.{running};
ghost use Rattle.mdb_top.specs.declared.words.Job.TheVariants as asks;
ghost use Rattle.mdb_top.specs.Audits.{AuditEnds};
ghost use Rattle.mdb_top.specs.Endings.{Carries, Ends};
ghost use Rattle.mdb_top.specs.Inputs.{SomeInput};
ghost use Rattle.mdb_top.specs.Resuming.{ResumeEnds};
ghost use Rattle.mdb_top.specs.Streams.{Gets, stream};
ghost use Rattle.mdb_top.specs.Texts as texts;
ghost use Rattle.mdb_top.specs.Verdicts.{asked_by};

use crate::audit_call::audit;
use crate::input::{Unplayed, read_plan, read_session};
use crate::resume_call::resume;
use crate::streams::{Sink, Source};
use crate::telling::{put_made, put_usage, refused, told, used};
use crate::used_disks::first_used;
use crate::words::{Job, job_of};
use fed_rules::Scenario;
use federation_run::Gate;
use journal_disk::Disk;
use scenario_text::Session;
use session_outputs::{Making, made_output_of, output_of, run_output_of};
use std::alloc::Global;
use std::sync::Wait;
use std::thread::Threads;

/// Puts the output of a session, where every disk is empty.
fn played<K: Sink, D: Disk>(alloc: Global, sink: &mut K, session: Session, disks: &mut Vec<D>) -> u8
    requires told { IsTrue D.tells }
    requires commands { AreCommands session.scenario.sites session.commands }
    requires nine { length disks.old.items ≡ 9 }
    ensures carries { Carries (replaying D.seen) result (stream K.tells (K.written sink.old) (K.written sink.new) (K.faults sink.old) (K.faults sink.new))
        (map D.seen disks.old.items) (map D.seen disks.new.items) session }
    ensures nine { length disks.new.items ≡ 9 }
    ensures untouched { result ≡ 8 → disks.new ≡ disks.old }
{
    match first_used(disks.as_slice()) {
        Some(number) => used(alloc, sink, number),
        None => {
            let made = output_of(alloc, session, disks);
            put_made(sink, made)
        }
    }
}

/// Replays the session that the source gives.
fn replay<S: Source, K: Sink, D: Disk>(
    alloc: Global,
    source: &mut S,
    sink: &mut K,
    disks: &mut Vec<D>,
) -> u8
    requires told { IsTrue D.tells }
    requires nine { length disks.old.items ≡ 9 }
    ensures ends { SomeInput S.tells (S.left source.old) (Ends session_of (replaying D.seen) result
        (stream S.tells (S.left source.old) (S.left source.new) (S.faults source.old) (S.faults source.new))
        (stream K.tells (K.written sink.old) (K.written sink.new) (K.faults sink.old) (K.faults sink.new))
        (map D.seen disks.old.items) (map D.seen disks.new.items)) }
    ensures untouched { In result (2 ∷ 3 ∷ 7 ∷ 8 ∷ []) → disks.new ≡ disks.old }
    ensures nine { length disks.new.items ≡ 9 }
{
    match read_session(alloc, source) {
        Ok(session) => played(alloc, sink, session, disks),
        Err(Unplayed::Failed) => told(sink, 3, b"read failed\n"),
        Err(Unplayed::TooLong) => told(sink, 7, b"too long\n"),
        Err(Unplayed::BadLine(bad)) => refused(alloc, sink, bad),
        Err(Unplayed::Memory) => told(sink, 6, b"no memory\n"),
    }
}

/// Puts the output of a scenario that runs in threads, where every disk is empty.
fn ran<R: Threads + Wait + Sync, K: Sink, D: Disk + Send, G: Gate + Sync>(
    rt: &R,
    alloc: Global,
    sink: &mut K,
    scenario: Scenario,
    disks: &mut Vec<D>,
    gate: &G,
) -> u8
    requires told { IsTrue D.tells }
    requires nine { length disks.old.items ≡ 9 }
    ensures carries { Carries (running D.seen) result (stream K.tells (K.written sink.old) (K.written sink.new) (K.faults sink.old) (K.faults sink.new))
        (map D.seen disks.old.items) (map D.seen disks.new.items) scenario }
    ensures nine { length disks.new.items ≡ 9 }
    ensures untouched { result ≡ 8 → disks.new ≡ disks.old }
{
    match first_used(disks.as_slice()) {
        Some(number) => used(alloc, sink, number),
        None => {
            let made = run_output_of(rt, alloc, scenario, disks, gate);
            put_made(sink, made)
        }
    }
}

/// Runs the scenario that the source gives.
fn run<R: Threads + Wait + Sync, S: Source, K: Sink, D: Disk + Send, G: Gate + Sync>(
    rt: &R,
    alloc: Global,
    source: &mut S,
    sink: &mut K,
    disks: &mut Vec<D>,
    gate: &G,
) -> u8
    requires told { IsTrue D.tells }
    requires nine { length disks.old.items ≡ 9 }
    ensures ends { SomeInput S.tells (S.left source.old) (Ends scenario_of (running D.seen) result
        (stream S.tells (S.left source.old) (S.left source.new) (S.faults source.old) (S.faults source.new))
        (stream K.tells (K.written sink.old) (K.written sink.new) (K.faults sink.old) (K.faults sink.new))
        (map D.seen disks.old.items) (map D.seen disks.new.items)) }
    ensures untouched { In result (2 ∷ 3 ∷ 7 ∷ 8 ∷ []) → disks.new ≡ disks.old }
    ensures nine { length disks.new.items ≡ 9 }
{
    match read_plan(alloc, source) {
        Ok(scenario) => ran(rt, alloc, sink, scenario, disks, gate),
        Err(Unplayed::Failed) => told(sink, 3, b"read failed\n"),
        Err(Unplayed::TooLong) => told(sink, 7, b"too long\n"),
        Err(Unplayed::BadLine(bad)) => refused(alloc, sink, bad),
        Err(Unplayed::Memory) => told(sink, 6, b"no memory\n"),
    }
}

/// Puts the output of a made scenario, where every disk is empty.
fn made<R: Threads + Wait + Sync, K: Sink, D: Disk + Send, G: Gate + Sync>(
    rt: &R,
    alloc: Global,
    sink: &mut K,
    making: Making,
    disks: &mut Vec<D>,
    gate: &G,
) -> u8
    requires told { IsTrue D.tells }
    requires makeable { IsMakeable making }
    requires nine { length disks.old.items ≡ 9 }
    ensures carries { Carries (makes.making D.seen) result (stream K.tells (K.written sink.old) (K.written sink.new) (K.faults sink.old) (K.faults sink.new))
        (map D.seen disks.old.items) (map D.seen disks.new.items) making }
    ensures status { In result (0 ∷ 4 ∷ 5 ∷ 6 ∷ 8 ∷ []) }
    ensures nine { length disks.new.items ≡ 9 }
    ensures untouched { result ≡ 8 → disks.new ≡ disks.old }
{
    match first_used(disks.as_slice()) {
        Some(number) => used(alloc, sink, number),
        None => {
            let made = made_output_of(rt, alloc, making, disks, gate);
            put_made(sink, made)
        }
    }
}

/// Carries out what the words ask for, over the source's bytes and with nine disks, of which disk a is that of actor a; puts what there is
/// to say, and answers the status: 0 where all is done; 1 where the words are no command; 2 where the bytes are no session, or no scenario
/// of a run; 3 where a read failed; 4 where the sink failed while the output was put; 5 where a call of a disk failed; 6 where memory was
/// wanting; 7 where there are more than 4,194,304 bytes; 8 where a disk isn't empty, the least of which is named; 9 where an audited run
/// doesn't agree with its scenario, with the first line that differs; 10 where a disk is damaged, and 11 where none is and a journal isn't
/// one that a session leaves, the least such disk of which is named (this project's profile). The words don't hold the program's name;
/// `store FOLDER` is a replay on the disks that are handed in, and `resume FOLDER` goes on from them. What a source or a sink doesn't tell,
/// nothing is said of. The gate is called at the start of each call on a host of a run, under that host's lock.
pub fn federate<R: Threads + Wait + Sync, S: Source, K: Sink, D: Disk + Send, G: Gate + Sync>(
    rt: &R,
    alloc: Global,
    words: &[String],
    source: &mut S,
    sink: &mut K,
    disks: &mut Vec<D>,
    gate: &G,
) -> u8
    requires told { IsTrue D.tells }
    requires nine { length disks.old.items ≡ 9 }
    requires synced { asked_by (map string_bytes words.now) ≡ Some asks.Resume → AreSynced (images_of (map D.seen disks.old.items)) }

    // Words that are no command: the usage is told, and nothing is read.
    ensures usage { (result ≡ 1) ↔ (asked_by (map string_bytes words.now) ≡ None) }
    ensures usage_text { result ≡ 1 →
        Gets (stream K.tells (K.written sink.old) (K.written sink.new) (K.faults sink.old) (K.faults sink.new)) texts.usage_text }
    ensures unread { result ≡ 1 → source.new ≡ source.old }

    // A replay: of one input, which is that of the source where it tells, each status comes with its cause, with what the sink has got
    // then and with what the disks hold.
    ensures replays { asked_by (map string_bytes words.now) ≡ Some asks.Replay → SomeInput S.tells (S.left source.old) (Ends session_of (replaying D.seen) result
        (stream S.tells (S.left source.old) (S.left source.new) (S.faults source.old) (S.faults source.new))
        (stream K.tells (K.written sink.old) (K.written sink.new) (K.faults sink.old) (K.faults sink.new))
        (map D.seen disks.old.items) (map D.seen disks.new.items)) }

    // A run in threads: likewise, of a scenario without commands.
    ensures runs { asked_by (map string_bytes words.now) ≡ Some asks.Run → SomeInput S.tells (S.left source.old) (Ends scenario_of (running D.seen) result
        (stream S.tells (S.left source.old) (S.left source.new) (S.faults source.old) (S.faults source.new))
        (stream K.tells (K.written sink.old) (K.written sink.new) (K.faults sink.old) (K.faults sink.new))
        (map D.seen disks.old.items) (map D.seen disks.new.items)) }

    // A made scenario: of what the words say and of no input; nothing is read.
    ensures makes { (asked : TheMaking) → asked_by (map string_bytes words.now) ≡ Some (asks.Make asked) → Carries (makes.making D.seen) result
        (stream K.tells (K.written sink.old) (K.written sink.new) (K.faults sink.old) (K.faults sink.new))
        (map D.seen disks.old.items) (map D.seen disks.new.items) asked }
    ensures unread_made { (asked : TheMaking) → asked_by (map string_bytes words.now) ≡ Some (asks.Make asked) → source.new ≡ source.old }

    // An audit: of the verdict on one input, which is the defined one exactly. A yes implies the headline, with the printed order.
    ensures audits { asked_by (map string_bytes words.now) ≡ Some asks.Audit → SomeInput S.tells (S.left source.old) (AuditEnds result
        (stream S.tells (S.left source.old) (S.left source.new) (S.faults source.old) (S.faults source.new))
        (stream K.tells (K.written sink.old) (K.written sink.new) (K.faults sink.old) (K.faults sink.new))
        (map D.seen disks.old.items) (map D.seen disks.new.items)) }

    // A session that goes on from the disks, whose bytes are all synced: of no input; nothing is read.
    ensures resumes { asked_by (map string_bytes words.now) ≡ Some asks.Resume → ResumeEnds D.seen result
        (stream K.tells (K.written sink.old) (K.written sink.new) (K.faults sink.old) (K.faults sink.new))
        (map D.seen disks.old.items) (map D.seen disks.new.items) }
    ensures unread_resumed { asked_by (map string_bytes words.now) ≡ Some asks.Resume → source.new ≡ source.old }

    // No disk is touched but for an input that is carried out, and there are nine still.
    ensures untouched { In result (1 ∷ 2 ∷ 3 ∷ 7 ∷ 8 ∷ []) → disks.new ≡ disks.old }
    ensures still_nine { length disks.new.items ≡ 9 }
{
    match job_of(words) {
        Some(Job::Replay) => replay(alloc, source, sink, disks),
        Some(Job::Run) => run(rt, alloc, source, sink, disks, gate),
        Some(Job::Make(making)) => made(rt, alloc, sink, making, disks, gate),
        Some(Job::Audit) => audit(alloc, source, sink, disks),
        Some(Job::Resume) => resume(alloc, sink, disks),
        None => put_usage(sink),
    }
}
