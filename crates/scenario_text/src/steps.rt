//! The steps of a transaction.
ghost use Rattle.std.specs.Prelude.{◌≡◌, List};
ghost use Rattle.scenario_text.specs.Pieces.{pieces, space};
ghost use Rattle.scenario_text.specs.Reads.{Gives};
ghost use Rattle.scenario_text.specs.Steps as steps;

use crate::bad::BadWhy;
use crate::draft::SiteDraft;
use crate::entry::Steps;
use crate::fault::Fault;
use crate::names::{key_of, number_in, value_of};
use crate::pieces::{cut, one_piece, three_pieces, two_pieces};
use crate::usual_steps::read_usual;
use mdb_base::{Act, SiteId, Step};
use std::alloc::Global;

/// How many bytes a step and its space are likely to have. Room is taken for so many steps beforehand.
const LIKELY_BYTES: usize = 8;

/// What stands behind `get:`.
#[tactic(auto, unfolding(crate::specs::Steps::get_of))]
fn get_of(rest: &[u8]) -> Result<Act, BadWhy>
    ensures { result ≡ steps.get_of rest.now }
{
    let key = one_piece(rest, b':').ok_or(BadWhy::Spelling)?;
    Ok(Act::Get(key_of(key)?))
}

/// What stands behind `set:`.
#[tactic(auto, unfolding(crate::specs::Steps::set_of))]
fn set_of(rest: &[u8]) -> Result<Act, BadWhy>
    ensures { result ≡ steps.set_of rest.now }
{
    let (key, value) = two_pieces(rest, b':').ok_or(BadWhy::Spelling)?;
    let key = key_of(key)?;
    Ok(Act::Set(key, value_of(value)?))
}

/// What stands behind `add:`.
#[tactic(auto, unfolding(crate::specs::Steps::add_of))]
fn add_of(rest: &[u8]) -> Result<Act, BadWhy>
    ensures { result ≡ steps.add_of rest.now }
{
    let (key, register, amount) = three_pieces(rest, b':').ok_or(BadWhy::Spelling)?;
    let key = key_of(key)?;
    let register = number_in(0, 31, register)? as u8;
    let amount = value_of(amount)?;
    Ok(Act::Add {
        key,
        register,
        amount,
    })
}

/// An act: `get:K`, `set:K:V` or `add:K:R:N`.
#[tactic(auto, unfolding(crate::specs::Steps::act_of, crate::specs::Steps::act_by))]
fn act_of(word: &[u8]) -> Result<Act, BadWhy>
    ensures { result ≡ steps.act_of word.now }
{
    let (name, rest) = cut(word, b':').ok_or(BadWhy::Spelling)?;
    if name == b"get".as_slice() {
        get_of(rest)
    } else if name == b"set".as_slice() {
        set_of(rest)
    } else if name == b"add".as_slice() {
        add_of(rest)
    } else {
        Err(BadWhy::Spelling)
    }
}

/// A step of a global transaction, from its site's word and its act.
#[tactic(auto, unfolding(crate::specs::Steps::global_step))]
fn global_step(sites: &SiteDraft, word: &[u8], act: Result<Act, BadWhy>) -> Result<Step, BadWhy>
    ensures { result ≡ steps.global_step sites.now word.now act }
{
    if let Err(BadWhy::Spelling) = act {
        return Err(BadWhy::Spelling);
    }
    let site = sites.site_of(word)?;
    let act = act?;
    Ok(Step { site, act })
}

/// A step of a local transaction at its home, or of a global one.
#[tactic(auto, unfolding(crate::specs::Steps::step_of))]
fn step_of(sites: &SiteDraft, home: Option<SiteId>, word: &[u8]) -> Result<Step, BadWhy>
    ensures { result ≡ steps.step_of sites.now home word.now }
{
    match home {
        Some(site) => {
            let act = act_of(word)?;
            Ok(Step { site, act })
        }
        None => {
            let (site, act) = cut(word, b'/').ok_or(BadWhy::Spelling)?;
            global_step(sites, site, act_of(act))
        }
    }
}

/// The steps that these words spell.
pub fn steps_of(
    alloc: Global,
    sites: &SiteDraft,
    home: Option<SiteId>,
    words: &[u8],
) -> Result<Steps, Fault>
    ensures { Gives (λ s. s) result (steps.steps_of sites.now home (pieces space words.now)) }
{
    let mut steps = Vec::with_capacity(alloc, words.len() / LIKELY_BYTES + 1)?;
    let mut rest = read_usual(&mut steps, sites, home, words)?;
    while let Some((word, more)) = cut(rest, b' ') {
        steps.push(step_of(sites, home, word)?)?;
        rest = more;
    }
    steps.push(step_of(sites, home, rest)?)?;
    Ok(Steps::of(steps))
}
