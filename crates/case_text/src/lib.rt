//! Files of cases: sections, each with the words of its header and the bytes that its lines spell.
//!
//! A line `--- WORDS` is the header of a section, whose lines are those up to the next header. A line gives its bytes and a line feed. In it
//! `\xHH` is the byte with these two hexadecimal digits and `\\` a backslash; a backslash at its end takes the line feed away. A line
//! `\each FROM TO LINE` gives LINE once for each number from FROM to TO, with the number in place of each `{}`. What stands before the first
//! header is prose.
#![tactic(auto)]

mod errors;
mod hex;
mod lines;
mod sections;

pub use errors::CaseErr;
pub use hex::push_hex;
pub use sections::{Section, read_sections};
