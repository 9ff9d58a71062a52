//! The usual commands, told by their bytes.
ghost use Rattle.std.specs.Prelude.{IfSome};
ghost use Rattle.trace_lines.specs.Usual.{Asks};

use crate::commands::{number_command, pair_command};
use crate::fronts::{front_keyword, number_behind};
use fed_rules::Command;

/// The command of one number, or of a site and a place, that a text begins with, and the text behind it.
pub fn usual_command(text: &[u8]) -> Option<(Command, &[u8])>
    ensures { IfSome result (λ p. Asks p.0 text.now p.1.now) }
{
    let (keyword, behind) = front_keyword(text)?;
    let (first, rest) = number_behind(behind)?;
    match number_behind(rest) {
        None => Some((number_command(keyword, first)?, rest)),
        Some((second, last)) => Some((pair_command(keyword, first, second)?, last)),
    }
}
