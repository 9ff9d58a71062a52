//! Why a text is refused.
use thiserror::Error;

/// What is wrong with a line, in the words of the format.
#[derive(Clone, Copy, Debug, PartialEq, Eq)]
pub enum BadWhy {
    /// The first word is none that may stand here.
    Word,
    /// There are too few or too many words.
    Count,
    /// A number isn't spelled as one.
    Number,
    /// A number is out of its range.
    Range,
    /// Another word, a step or an attempt hasn't its form.
    Spelling,
    /// The site or actor isn't declared.
    Site,
    /// A site, an item's key, a transaction, a message of a link or a setting stands twice.
    Repeated,
    /// A register isn't below the number of reads before it.
    Register,
    /// A limit on steps, items, links, stops or commands is passed.
    Many,
    /// The line has more than 2,048 bytes.
    Long,
    /// A byte isn't 32 to 126.
    Bytes,
    /// The last line has no line feed.
    Ending,
}

/// The first bad line, counted from 1, with its reason.
#[derive(Clone, Copy, Debug, PartialEq, Eq)]
pub struct BadLine {
    pub line: u32,
    pub why: BadWhy,
}

/// Why a text isn't read.
#[derive(Clone, Copy, Debug, PartialEq, Eq, Drop, Error)]
pub enum TextErr {
    #[error("a bad line")]
    Bad(BadLine),
    #[error("no memory")]
    Memory,
}
