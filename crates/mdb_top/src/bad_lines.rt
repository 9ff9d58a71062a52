//! What is said of a text's first bad line.
ghost use Rattle.std.specs.Prelude.{◌≡◌, IfOk};
ghost use Rattle.mdb_top.specs.Texts as texts;

use mdb_base::{Memory, put_number, put_text};
use scenario_text::{BadLine, BadWhy};
use std::alloc::Global;

/// The word of a reason.
fn why_text(why: BadWhy) -> &'static str
    ensures { result.now ≡ texts.why_text why }
{
    match why {
        BadWhy::Word => "word",
        BadWhy::Count => "count",
        BadWhy::Number => "number",
        BadWhy::Range => "range",
        BadWhy::Spelling => "spelling",
        BadWhy::Site => "site",
        BadWhy::Repeated => "repeated",
        BadWhy::Register => "register",
        BadWhy::Many => "many",
        BadWhy::Long => "long",
        BadWhy::Bytes => "bytes",
        BadWhy::Ending => "ending",
    }
}

/// `bad line`, its number and its reason, as a line.
pub(crate) fn bad_line_text(alloc: Global, bad: BadLine) -> Result<Vec<u8>, Memory>
    ensures { IfOk result (λ text. text.items ≡ texts.bad_line_text bad) }
{
    let mut text = Vec::new(alloc);
    put_text(&mut text, "bad line ")?;
    put_number(&mut text, u64::from(bad.line))?;
    put_text(&mut text, " ")?;
    put_text(&mut text, why_text(bad.why))?;
    put_text(&mut text, "\n")?;
    Ok(text)
}
