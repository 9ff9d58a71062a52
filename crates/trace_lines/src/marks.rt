//! Words cut at a mark.
ghost use Rattle.std.specs.Prelude.{◌≡◌};
ghost use Rattle.trace_lines.specs.Reading as reading;
ghost use Rattle.trace_lines.specs.Reading.{Finds};

use line_text::Word::Plain;
use line_text::{Keyword, Word};

/// A word that parts a line.
#[derive(Clone, Copy)]
pub enum Mark {
    /// The answer stands behind it.
    Arrow,
    /// Places stand behind it.
    Sends,
    /// It ends a decision.
    Forgets,
}

fn is_mark(mark: Mark, word: &Word) -> bool
    ensures { result ≡ reading.is_mark mark word.now }
{
    matches!(
        (mark, word),
        (Mark::Arrow, Plain(Keyword::Arrow))
            | (Mark::Sends, Plain(Keyword::Sends))
            | (Mark::Forgets, Plain(Keyword::Forgets))
    )
}

/// What stands before the first such mark, and what stands behind it.
pub fn cut_at(mark: Mark, words: &[Word]) -> Option<(&[Word], &[Word])>
    ensures { Finds (λ parts. (parts.0.now, parts.1.now)) result (reading.cut_at mark words.now) }
{
    for (place, word) in words.iter().enumerate() {
        if is_mark(mark, word) {
            return Some((&words[..place], &words[place + 1..]));
        }
    }
    None
}
