//! A text cut at its line `printed`.
ghost use Rattle.std.specs.Prelude.{◌≡◌, ◌≤◌, ◌<◌, ◌^◌, length};
ghost use Rattle.scenario_text.specs.Pieces.{lines};
ghost use Rattle.audit_text.specs.Texts as texts;
ghost use Rattle.audit_text.specs.Cuts.{AreFew, IsCut};

use crate::lines::{FirstLine, first_line};

/// A text before its line `printed`, with the count of its lines, and the text behind it, where there is that line.
#[derive(Clone, Copy)]
pub struct Cut<'a> {
    /// The text before the line, or all of it.
    pub front: &'a [u8],
    /// How many lines it has.
    pub lines: u32,
    /// The text behind the line.
    pub printed: Option<&'a [u8]>,
}

/// Whether the line is `printed`.
fn is_mark(line: &FirstLine<'_>) -> bool
    ensures { result ≡ texts.is_mark (record { bytes = line.now.bytes.now; ended = line.now.ended }) }
{
    line.ended && line.bytes == b"printed".as_slice()
}

/// Cuts a text at its first line `printed`.
pub fn cut_printed(text: &[u8]) -> Cut<'_>
    requires { length text.now < 2 ^ 32 }
    ensures cut { IsCut text.now result.front.now result.lines result.printed }
    ensures few { AreFew result.lines result.printed (length text.now) }
{
    let mut rest = text;
    let mut count: u32 = 0;
    while !rest.is_empty() {
        let line = first_line(rest);
        if is_mark(&line) {
            let (front, _) = text.split_at(text.len() - rest.len());
            return Cut {
                front,
                lines: count,
                printed: Some(line.behind),
            };
        }
        rest = line.behind;
        count += 1;
    }
    Cut {
        front: text,
        lines: count,
        printed: None,
    }
}
