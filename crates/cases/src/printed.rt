//! Texts that are made of a session's input and output.
use crate::headers::text_of;
use crate::wrong::Wrong;
use mdb_base::{Memory, put_text};
use std::alloc::Global;

/// A line.
fn put_line(text: &mut Vec<u8>, line: &str) -> Result<(), Memory> {
    put_text(text, line)?;
    put_text(text, "\n")
}

/// The lines of an input up to its commands.
fn put_scenario(text: &mut Vec<u8>, input: &str) -> Result<(), Memory> {
    for line in input.lines() {
        if line == "commands" {
            break;
        }
        put_line(text, line)?;
    }
    Ok(())
}

/// What is handed to an audit: the scenario of the input, the line `printed`, and the output.
pub(crate) fn submitted(alloc: Global, input: &str, output: &str) -> Result<Vec<u8>, Memory> {
    let mut text = Vec::new(alloc);
    put_scenario(&mut text, input)?;
    put_text(&mut text, "printed\n")?;
    put_text(&mut text, output)?;
    Ok(text)
}

/// The commands of these lines.
fn put_commands(text: &mut Vec<u8>, output: &str) -> Result<(), Memory> {
    for line in output.lines() {
        if let Some((command, _)) = line.split_once(" => ") {
            put_line(text, command)?;
        }
    }
    Ok(())
}

/// A session of the printed commands: the scenario of the input, and the command of each line of the output.
pub(crate) fn session_of(alloc: Global, input: &str, output: &str) -> Result<Vec<u8>, Memory> {
    let mut text = Vec::new(alloc);
    put_scenario(&mut text, input)?;
    put_text(&mut text, "commands\n")?;
    put_commands(&mut text, output)?;
    Ok(text)
}

/// What is replaced in what is handed to an audit.
#[derive(Drop)]
pub(crate) struct Edit {
    old: Vec<u8>,
    new: Vec<u8>,
}

impl Edit {
    /// Nothing is replaced.
    pub fn new(alloc: Global) -> Edit {
        Edit {
            old: Vec::new(alloc),
            new: Vec::new(alloc),
        }
    }

    /// Nothing is replaced any more.
    pub fn clear(&mut self) {
        self.old.clear();
        self.new.clear();
    }

    /// This part is replaced.
    pub fn replace(&mut self, old: &[u8]) -> Result<(), Wrong> {
        self.old.extend_from_slice(old)?;
        Ok(())
    }

    /// By this one.
    pub fn by(&mut self, new: &[u8]) -> Result<(), Wrong> {
        self.new.extend_from_slice(new)?;
        Ok(())
    }

    /// What is handed to an audit of this input and output: the old part stands in it, and the new one takes its place.
    pub fn of(&self, alloc: Global, input: &str, output: &str) -> Result<Vec<u8>, Wrong> {
        let text = submitted(alloc, input, output)?;
        edited(
            alloc,
            text_of(&text)?,
            text_of(&self.old)?,
            text_of(&self.new)?,
        )
    }
}

/// These parts, one after the other.
fn joined(alloc: Global, parts: &[&str]) -> Result<Vec<u8>, Wrong> {
    let mut text = Vec::new(alloc);
    for part in parts {
        put_text(&mut text, part)?;
    }
    Ok(text)
}

/// The text with the new part in place of the old one, which stands in it.
fn edited(alloc: Global, text: &str, old: &str, new: &str) -> Result<Vec<u8>, Wrong> {
    match text.split_once(old) {
        Some((front, rest)) => joined(alloc, &[front, new, rest]),
        None => Err(Wrong::Body),
    }
}

/// The input with this command before its own.
pub(crate) fn begun_with(alloc: Global, input: &str, command: &str) -> Result<Vec<u8>, Wrong> {
    match input.split_once("commands\n") {
        Some((scenario, rest)) => joined(alloc, &[scenario, "commands\n", command, "\n", rest]),
        None => Err(Wrong::Body),
    }
}

/// How many lines end in these bytes.
pub(crate) fn lines_in(bytes: &[u8]) -> u32 {
    let mut count: u32 = 0;
    for byte in bytes {
        if *byte == b'\n' {
            count = count.saturating_add(1);
        }
    }
    count
}

/// The text from this word on; nothing where it doesn't stand there.
fn from_word<'a>(text: &'a str, word: &str) -> &'a str {
    match text.find(word) {
        Some(place) => text.get(place..).unwrap_or(""),
        None => "",
    }
}

/// The report of an output: what stands in it from the first outcome on, or from the forgotten ones on.
pub(crate) fn report_of(output: &str) -> &str {
    let outcomes = from_word(output, "outcome ");
    if outcomes.is_empty() {
        from_word(output, "forgotten")
    } else {
        outcomes
    }
}

/// The lines before the last one, which says that this disk failed, where the whole output begins with them.
pub(crate) fn front_of_failed<'a>(whole: &str, output: &'a str, disk: u32) -> Option<&'a str> {
    let (front, number) = output.strip_suffix(" failed\n")?.rsplit_once("disk ")?;
    let are_lines = front.is_empty() || front.ends_with('\n');
    if are_lines && whole.starts_with(front) && number.parse::<u32>().ok()? == disk {
        Some(front)
    } else {
        None
    }
}
