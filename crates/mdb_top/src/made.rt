//! Made scenarios: the words that ask for one.
ghost use Rattle.std.specs.Prelude.{◌≡◌, IfSome, map, string_bytes};
ghost use Rattle.session_outputs.specs.Makes.{IsMakeable};
ghost use Rattle.mdb_top.specs.Made as asked;

use scenario_text::number_in;
use session_outputs::Making;

/// What the words `make NUMBER SITES TRANSACTIONS` ask for.
pub(crate) fn made_by(words: &[String]) -> Option<Making>
    ensures exact { result ≡ asked.made_by (map string_bytes words.now) }
    ensures makeable { IfSome result IsMakeable }
{
    if words.len() != 4 || words[0].as_str() != "make" {
        return None;
    }
    let number = number_in(0, u64::MAX, words[1].as_bytes()).ok()?;
    let sites = number_in(1, 8, words[2].as_bytes()).ok()?;
    let transactions = number_in(1, 1_024, words[3].as_bytes()).ok()?;
    Some(Making {
        number,
        sites: sites as u8,
        transactions: transactions as u32,
    })
}
