//! The sections of a file.
use crate::errors::CaseErr;
use crate::lines::push_line;
use std::alloc::Global;

/// A section: its header, and what its lines spell.
#[derive(Drop)]
pub struct Section {
    /// The number of the header's line, counted from 1.
    pub line: u32,
    /// What stands in the header after the dashes.
    pub words: String,
    /// What its lines spell.
    pub body: Vec<u8>,
}

/// Adds a section without lines.
fn begin(
    alloc: Global,
    sections: &mut Vec<Section>,
    line: u32,
    words: &str,
) -> Result<(), CaseErr> {
    let words = String::from_str(alloc, words)?;
    let body = Vec::new(alloc);
    sections.push(Section { line, words, body })?;
    Ok(())
}

/// Adds what this line spells to the last section.
fn go_on(
    alloc: Global,
    sections: &mut Vec<Section>,
    number: u32,
    line: &str,
) -> Result<(), CaseErr> {
    let Some(section) = sections.last_mut() else {
        return Ok(());
    };
    if push_line(alloc, &mut section.body, line)? {
        Ok(())
    } else {
        Err(CaseErr::BadLine(number))
    }
}

/// The sections of a file, in their order.
pub fn read_sections(alloc: Global, text: &str) -> Result<Vec<Section>, CaseErr> {
    let mut sections = Vec::new(alloc);
    let mut number: u32 = 0;
    for line in text.lines() {
        number = number.saturating_add(1);
        match line.strip_prefix("--- ") {
            Some(words) => begin(alloc, &mut sections, number, words)?,
            None => go_on(alloc, &mut sections, number, line)?,
        }
    }
    Ok(sections)
}
