//! The program: `mdbfed replay` reads a session from standard input, and `mdbfed run` a scenario; both write the lines and the report to
//! standard output. `mdbfed make` reads nothing, and writes the summary of a made scenario. `mdbfed store FOLDER` is `mdbfed replay` with
//! the journals in the files of a folder, and `mdbfed resume FOLDER` goes on from them.
#![tactic(auto)]

ghost use Rattle.std.specs.Prelude.{◌≡◌, IfOk, length};

mod std_streams;

use crate::std_streams::{StdSink, StdSource};
use file_disks::FileStore;
use mdb_base::Memory;
use mdb_top::{MemDisk, NoGate, federate, federate_store, names_folder};
use std::alloc::Global;
use std::env;
use std::env::Env;
use std::io::ErrorKind;
use std::process::ExitCode;

/// The status where there is no memory for the words or the disks.
const NO_MEMORY: u8 = 6;

/// The words behind the program's name. Where one of them isn't text they are no command, and none are given.
fn words_of<R: Env + AllocGlobal>(rt: &R) -> Result<Vec<String>, Memory> {
    let mut words = Vec::new(rt.alloc());
    match env::args(rt) {
        Ok(all) => {
            for word in all.skip(1) {
                words.push(word)?;
            }
            Ok(words)
        }
        Err(why) if why.kind() == ErrorKind::OutOfMemory => Err(Memory),
        Err(_) => Ok(words),
    }
}

/// How many actors there are: the coordinator, and eight sites.
const ACTORS: u8 = 9;

/// An empty disk in memory for each actor.
fn empty_disks(alloc: Global) -> Result<Vec<MemDisk>, Memory>
    ensures { IfOk result (λ disks. length disks.items ≡ 9) }
{
    let mut disks = Vec::new(alloc);
    for _ in 0..ACTORS {
        disks.push(MemDisk::new(alloc)?)?;
    }
    Ok(disks)
}

/// The word at this place, counted from 0, or the empty one where there are fewer.
fn word_at(words: &[String], place: usize) -> &str {
    match words.get(place) {
        Some(word) => word.as_str(),
        None => "",
    }
}

fn main(rt: HostRuntime) -> ExitCode {
    let Ok(words) = words_of(&rt) else {
        return ExitCode::from(NO_MEMORY);
    };
    let mut source = StdSource::new(rt.reader());
    let mut sink = StdSink::new(rt.stdout());
    if names_folder(&words) {
        let mut store = FileStore::new(rt.alloc(), &rt, word_at(&words, 1));
        let mut disks = Vec::new(rt.alloc());
        return ExitCode::from(federate_store(
            &rt,
            rt.alloc(),
            &words,
            &mut source,
            &mut sink,
            &mut store,
            &mut disks,
            &NoGate,
        ));
    }
    let Ok(mut disks) = empty_disks(rt.alloc()) else {
        return ExitCode::from(NO_MEMORY);
    };
    ExitCode::from(federate(
        &rt,
        rt.alloc(),
        &words,
        &mut source,
        &mut sink,
        &mut disks,
        &NoGate,
    ))
}
