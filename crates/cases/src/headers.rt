//! The words of headers.
use crate::wrong::Wrong;

/// The first word of a text, and what stands after it.
pub(crate) fn first_word(text: &str) -> (&str, &str) {
    match text.split_once(' ') {
        Some(parts) => parts,
        None => (text, ""),
    }
}

/// The number that a word spells.
pub(crate) fn number(word: &str) -> Result<u32, Wrong> {
    match word.parse::<u32>() {
        Ok(number) => Ok(number),
        Err(_) => Err(Wrong::Header),
    }
}

/// Bytes as a text.
pub(crate) fn text_of(bytes: &[u8]) -> Result<&str, Wrong> {
    match str::from_utf8(bytes) {
        Ok(text) => Ok(text),
        Err(_) => Err(Wrong::Body),
    }
}
