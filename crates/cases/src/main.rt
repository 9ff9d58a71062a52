//! Plays cases: each folder that lies where the program runs has files of cases, which say of a call of the federation what it is given and
//! what it is to put, and of the disks what lies on them. A line is printed for each folder, and one at the end. At the first section that
//! doesn't come out as it says, that one is named with its file and its line, and the status is 1.
#![tactic(auto)]

mod calls;
mod comparing;
mod deeds;
mod disks;
mod faults;
mod folder;
mod headers;
mod inputs;
mod newest;
mod player;
mod printed;
mod stops;
mod streams;
mod sweeps;
mod wrong;

use crate::player::Player;
use crate::wrong::Wrong;
use case_text::{CaseErr, Section, read_sections};
use std::process::ExitCode;
use std::rt::Files;
use std::sync::Wait;
use std::thread::Threads;
use std::{fs, io};

/// Why the cases of a file don't pass: the line of a section, and what is wrong with it.
#[derive(Clone, Copy)]
struct Stopped {
    line: u32,
    wrong: Wrong,
}

/// Adds the names in a folder.
fn add_names<R: Files + AllocGlobal + Clone + Drop>(
    rt: &R,
    folder: &str,
    names: &mut Vec<String>,
) -> io::Result<()> {
    for entry in fs::read_dir(rt, folder)? {
        let entry = entry?;
        names.push(String::from_str(rt.alloc(), entry.file_name())?)?;
    }
    Ok(())
}

/// The names in a folder, in their order.
fn names_in<R: Files + AllocGlobal + Clone + Drop>(
    rt: &R,
    folder: &str,
) -> io::Result<Vec<String>> {
    let mut names = Vec::new(rt.alloc());
    add_names(rt, folder, &mut names)?;
    names.sort()?;
    Ok(names)
}

/// What a file of this folder holds.
fn bytes_in<R: Files + AllocGlobal>(rt: &R, folder: &str, name: &str) -> Result<Vec<u8>, Wrong> {
    let file = format!(in rt.alloc(); "{folder}/{name}")?;
    match fs::read(rt, file.as_str()) {
        Ok(bytes) => Ok(bytes),
        Err(_) => Err(Wrong::File),
    }
}

/// Plays a section. Where its header ends in `< NAME`, its lines are those of that file in the same folder, as they stand.
fn play_section<R: Files + Threads + Wait + Sync + AllocGlobal>(
    rt: &R,
    player: &mut Player,
    folder: &str,
    section: &Section,
) -> Result<(), Wrong> {
    match section.words.as_str().split_once(" < ") {
        Some((words, name)) => player.play(rt, words, &bytes_in(rt, folder, name)?),
        None => player.play(rt, section.words.as_str(), &section.body),
    }
}

/// Plays these sections, and gives how many cases there are.
fn play_sections<R: Files + Threads + Wait + Sync + AllocGlobal>(
    rt: &R,
    player: &mut Player,
    folder: &str,
    sections: &[Section],
) -> Result<u32, Stopped> {
    let mut cases: u32 = 0;
    for section in sections {
        if section.words.as_str().starts_with("case ") {
            cases = cases.saturating_add(1);
        }
        if let Err(wrong) = play_section(rt, player, folder, section) {
            let line = section.line;
            return Err(Stopped { line, wrong });
        }
    }
    Ok(cases)
}

/// Plays a text of cases, and gives how many there are.
fn play_text<R: Files + Threads + Wait + Sync + AllocGlobal>(
    rt: &R,
    player: &mut Player,
    folder: &str,
    text: &str,
) -> Result<u32, Stopped> {
    match read_sections(rt.alloc(), text) {
        Ok(sections) => play_sections(rt, player, folder, &sections),
        Err(CaseErr::BadLine(line)) => Err(Stopped {
            line,
            wrong: Wrong::Body,
        }),
        Err(CaseErr::Memory) => Err(Stopped {
            line: 0,
            wrong: Wrong::Memory,
        }),
    }
}

/// The line of the output at which it differs, where that is what is wrong.
fn line_there(wrong: Wrong, output: &str) -> Option<&str> {
    let Wrong::Output { line } = wrong else {
        return None;
    };
    output.lines().nth((line as usize).saturating_sub(1))
}

/// Says why a file doesn't pass, with the line of the output at which it differs.
fn explain<R: Print>(rt: &R, file: &str, stopped: Stopped, output: &str) -> io::Result<()> {
    let line = stopped.line;
    match stopped.wrong.said() {
        (why, Some(number)) => println!(rt; "{file}:{line}: {why} {number}")?,
        (why, None) => println!(rt; "{file}:{line}: {why}")?,
    }
    match line_there(stopped.wrong, output) {
        Some(there) => println!(rt; "there is: {there}"),
        None => Ok(()),
    }
}

/// Plays a file of cases, and gives how many there are; none where one doesn't pass, which is said.
fn play_file<R: Files + Print + Threads + Wait + Sync + AllocGlobal>(
    rt: &R,
    player: &mut Player,
    folder: &str,
    name: &str,
) -> io::Result<Option<u32>> {
    let file = format!(in rt.alloc(); "{folder}/{name}")?;
    let text = fs::read_to_string(rt, file.as_str())?;
    match play_text(rt, player, folder, text.as_str()) {
        Ok(cases) => Ok(Some(cases)),
        Err(stopped) => {
            explain(rt, file.as_str(), stopped, player.output())?;
            Ok(None)
        }
    }
}

/// Plays those of these files of a folder whose names end in `.case`, and gives how many cases they have; none where one doesn't pass.
fn play_files<R: Files + Print + Threads + Wait + Sync + AllocGlobal>(
    rt: &R,
    player: &mut Player,
    folder: &str,
    names: &[String],
) -> io::Result<Option<u32>> {
    let mut all: u32 = 0;
    for name in names {
        if !name.as_str().ends_with(".case") {
            continue;
        }
        match play_file(rt, player, folder, name.as_str())? {
            Some(cases) => all = all.saturating_add(cases),
            None => return Ok(None),
        }
    }
    println!(rt; "{folder}: {all} cases")?;
    Ok(Some(all))
}

/// Plays these folders, and gives how many cases they have; none where one doesn't pass.
fn play_folders<R: Files + Print + Threads + Wait + Sync + AllocGlobal + Clone + Drop>(
    rt: &R,
    player: &mut Player,
    folders: &[String],
) -> io::Result<Option<u32>> {
    let mut all: u32 = 0;
    for folder in folders {
        let names = names_in(rt, folder.as_str())?;
        match play_files(rt, player, folder.as_str(), &names)? {
            Some(cases) => all = all.saturating_add(cases),
            None => return Ok(None),
        }
    }
    println!(rt; "{all} cases pass")?;
    Ok(Some(all))
}

/// Plays all folders.
fn play_all<R: Files + Print + Threads + Wait + Sync + AllocGlobal + Clone + Drop>(
    rt: &R,
) -> io::Result<Option<u32>> {
    let mut player = Player::new(rt.alloc());
    play_folders(rt, &mut player, &names_in(rt, ".")?)
}

fn main(rt: HostRuntime) -> ExitCode {
    match play_all(&rt) {
        Ok(Some(_)) => ExitCode::from(0),
        Ok(None) => ExitCode::from(1),
        Err(why) => {
            let _ = println!(rt; "{why}");
            ExitCode::from(2)
        }
    }
}
