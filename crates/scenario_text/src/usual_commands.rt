//! The usual commands, read by their bytes up to their line feed. What isn't read so is read by its words.
ghost use Rattle.std.specs.Prelude.{IfSome};
ghost use Rattle.scenario_text.specs.FirstLines.{Says, command_said, message_said, tx_said};
ghost use Rattle.scenario_text.specs.Texts.{most_bytes};

use crate::draft::SiteDraft;
use crate::first_words::{
    behind_begin, behind_commit, behind_fate, behind_give, behind_go, behind_step, behind_take,
};
use crate::fronts::{number_to, site_to};
use fed_rules::Command;
use mdb_base::{SiteId, Tx};

/// The transaction that a text has up to its line feed, and the text behind that.
#[tactic(auto, using(crate::proofs::UsualLemmas::says_tx))]
fn tx_line(text: &[u8]) -> Option<(Tx, &[u8])>
    ensures { IfSome result (λ p. Says tx_said 9 p.0 text.now p.1.now) }
{
    let (number, rest) = number_to(text, b'\n')?;
    if 1 <= number && number <= 1_024 {
        Some((Tx(number), rest))
    } else {
        None
    }
}

/// The declared site and the message that a text has up to its line feed, and the text behind that.
#[inline(always)]
#[tactic(auto, using(crate::proofs::UsualLemmas::says_message))]
fn message_line<'a>(sites: &SiteDraft, text: &'a [u8]) -> Option<(SiteId, u32, &'a [u8])>
    ensures { IfSome result (λ p. Says (message_said sites.now) 11 (p.0, p.1) text.now p.2.now) }
{
    let (site, behind) = site_to(sites, text, b' ')?;
    let (place, rest) = number_to(behind, b'\n')?;
    Some((site, place, rest))
}

/// The command that the first line of a text says, where it is a usual one in few bytes, and the text behind that line.
pub fn usual_command<'a>(sites: &SiteDraft, text: &'a [u8]) -> Option<(Command, &'a [u8])>
    ensures { IfSome result (λ p. Says (command_said sites.now) most_bytes p.0 text.now p.1.now) }
{
    if let Some(behind) = behind_take(text) {
        let (site, place, rest) = message_line(sites, behind)?;
        return Some((Command::Take { site, place }, rest));
    }
    if let Some(behind) = behind_give(text) {
        let (site, place, rest) = message_line(sites, behind)?;
        return Some((Command::Give { site, place }, rest));
    }
    if let Some(behind) = behind_step(text) {
        let (tx, rest) = tx_line(behind)?;
        return Some((Command::Step(tx), rest));
    }
    if let Some(behind) = behind_fate(text) {
        let (tx, rest) = tx_line(behind)?;
        return Some((Command::Fate(tx), rest));
    }
    if let Some(behind) = behind_go(text) {
        let (tx, rest) = tx_line(behind)?;
        return Some((Command::Go(tx), rest));
    }
    if let Some(behind) = behind_begin(text) {
        let (tx, rest) = tx_line(behind)?;
        return Some((Command::Begin(tx), rest));
    }
    if let Some(behind) = behind_commit(text) {
        let (tx, rest) = tx_line(behind)?;
        return Some((Command::Commit(tx), rest));
    }
    None
}
