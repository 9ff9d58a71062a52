//! Lines as text, both ways: a command, its answer, and the places of what it sent.
//!
//! Each line has one spelling, so the bytes of lines determine them. `line_text` says how a line is spelled and prints it, and here it
//! is read: `specs/Reading.antt` says what the words of a line are read as, and `specs/Lexed.antt` computes what the bytes of a line are read as.
#![tactic(auto)]

ghost use Rattle.std.specs.Prelude.{◌≡◌, ◌↔◌, ℕ, List, ◌++◌, Some, codes, IsTrue, IfOk, IsErrOf};
ghost use Rattle.mdb_base.specs.Words.{Each};
ghost use Rattle.fed_rules.specs.declared.commands.Line.{Line};
ghost use Rattle.line_text.specs.Spelling.{line_bytes, lines_bytes};
ghost use Rattle.line_text.specs.Range.{is_line};
ghost use Rattle.trace_lines.specs.Reading.{Gives, Reads};
ghost use Rattle.trace_lines.specs.Lexed.{line_in, tids_in};

mod answers;
mod commands;
mod error;
mod fits;
mod fronts;
mod keywords;
mod lexing;
mod marks;
mod numbers;
mod reading;
mod usual_answers;
mod usual_commands;
mod usual_lines;

pub use error::LineErr;
pub use fed_rules::{Answer, Cause, Command, Line, Place, Places, Stamped, StampedLines};
pub use line_text::{DoorErr, print_line};
use mdb_base::Tid;
use std::alloc::Global;

/// The line that is spelled so, without a line feed. The answer and the places are some that the command can have, and each
/// number is in its range. It is the line that is computed of the bytes.
pub fn read_line(alloc: Global, text: &[u8]) -> Result<Line, LineErr>
    ensures found { IfOk result (λ line. IsTrue (is_line line) × (text.now ≡ line_bytes line)) }
    // Nothing that is spelled as a line is refused.
    ensures none { IsErrOf result LineErr.NoLine → (line : Line) → IsTrue (is_line line) → text.now ≡ line_bytes line → ⊥ }
    ensures computed { Gives result (line_in text.now) }
{
    if let Some(line) = usual_lines::usual_line(alloc, text)? {
        return Ok(line);
    }
    let words = lexing::words_of(alloc, text)?;
    reading::line_of(alloc, &words)
}

/// The attempts that a text spells, with one space between each two. It is `NoLine` where some word spells none, or where there is no word.
pub fn read_tids(alloc: Global, text: &[u8]) -> Result<Vec<Tid>, LineErr>
    ensures { Reads (λ tids. tids.items) result (tids_in text.now) }
{
    let words = lexing::words_of(alloc, text)?;
    reading::tids_of(alloc, &words)
}

/// What is computed of bytes is the line that they spell, and nothing where they spell none.
pub fn line_in_is_the_spelled_line()
    ensures { (line : Line) (bytes : List ℕ) → (line_in bytes ≡ Some line) ↔ (IsTrue (is_line line) × (bytes ≡ line_bytes line)) }
{}

/// Each line has one spelling, so what is printed is read again as the same line.
pub fn one_spelling()
    ensures { (a b : Line) → IsTrue (is_line a) → IsTrue (is_line b) → line_bytes a ≡ line_bytes b → a ≡ b }
{}

/// The bytes of lines, each with its line feed, and of a report behind them determine the lines: a report begins with `order`.
pub fn one_text()
    ensures { (a b : List Line) (x y : List ℕ) → Each (λ line. IsTrue (is_line line)) a → Each (λ line. IsTrue (is_line line)) b
        → lines_bytes a ++ (codes "order" ++ x) ≡ lines_bytes b ++ (codes "order" ++ y) → (a ≡ b) × (x ≡ y) }
{}
