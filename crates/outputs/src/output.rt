//! What is to be put: the lines of a session and what is reported of it, or the disk that failed.
ghost use Rattle.std.specs.Prelude.{◌≡◌, ◌++◌, IsTrue, OnOk};
ghost use Rattle.mdb_base.specs.Words.{Each};
ghost use Rattle.line_text.specs.Fits.{line_fits};
ghost use Rattle.line_text.specs.Spelling.{lines_bytes};
ghost use Rattle.outputs.specs.Outputs.{IfBroken};
ghost use Rattle.outputs.specs.Texts.{disk_failed_text};

use fed_rules::Line;
use line_text::print_line;
use mdb_base::{Memory, put_number, put_text};
use std::alloc::Global;

/// What is to be put of a command of the program.
#[derive(Drop)]
pub enum Output {
    /// All was done: the lines and the report, or the summary of a made scenario.
    Whole(Vec<u8>),
    /// A disk call failed: the lines that were made before, and which disk it was.
    Broken(Vec<u8>),
}

/// So many bytes are taken for a line and its line feed, where room is made for lines.
const LINE_LENGTH: usize = 40;

/// Appends the lines, a line feed behind each.
pub fn put_lines(lines: &[Line], out: &mut Vec<u8>) -> Result<(), Memory>
    requires { Each (λ line. IsTrue (line_fits line)) lines.now }
    ensures { OnOk result (out.new.items ≡ out.old.items ++ lines_bytes lines.now) }
{
    out.reserve(lines.len().saturating_mul(LINE_LENGTH))?;
    for line in lines {
        print_line(line, out)?;
        put_text(out, "\n")?;
    }
    Ok(())
}

/// These lines, and behind them which disk failed.
pub fn broken(alloc: Global, lines: &[Line], number: u8) -> Result<Output, Memory>
    requires { Each (λ line. IsTrue (line_fits line)) lines.now }
    ensures { IfBroken result (λ bytes. bytes ≡ lines_bytes lines.now ++ disk_failed_text number) }
{
    let mut out = Vec::new(alloc);
    put_lines(lines, &mut out)?;
    put_text(&mut out, "disk ")?;
    put_number(&mut out, u64::from(number))?;
    put_text(&mut out, " failed\n")?;
    Ok(Output::Broken(out))
}
