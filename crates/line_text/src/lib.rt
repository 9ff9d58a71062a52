//! How a line is spelled: a command, its answer, and the places of what it sent; and lines printed so.
//!
//! `specs/Spelling.antt` says how a line is spelled, `specs/Fits.antt` which answers a command can have and where places stand, and
//! `specs/Range.antt` the numbers' ranges. `trace_lines` reads lines.
#![tactic(auto)]

ghost use Rattle.std.specs.Prelude.{◌≡◌, ◌++◌, IsTrue, OnOk, OnErr};
ghost use Rattle.line_text.specs.Fits.{line_fits};
ghost use Rattle.line_text.specs.Spelling.{line_bytes};

mod answers;
mod commands;
mod error;
mod pieces;
mod printing;
mod word;

pub use error::DoorErr;
use fed_rules::Line;
use mdb_base::Memory;
pub use word::{Keyword, Word};

/// Appends the line, without a line feed (this project's profile). The condition is that the line fits: its answer is one that its
/// command can have; places stand only behind an answer that can send, those of the coordinator at rising sites, and of a site one place
/// in its own channel; an answer of what is sent alone has a place. A number may have any value of its type: where one is out of its
/// range, the line is printed but isn't read again. An `Err` changes nothing.
pub fn print_line(line: &Line, out: &mut Vec<u8>) -> Result<(), Memory>
    requires { IsTrue (line_fits line.now) }
    ensures ok { OnOk result (out.new.items ≡ out.old.items ++ line_bytes line.now) }
    ensures err { OnErr result (out.new.items ≡ out.old.items) }
{
    let length = out.len();
    let printed = printing::put_line(out, line);
    if printed.is_err() {
        out.truncate(length);
    }
    printed
}
