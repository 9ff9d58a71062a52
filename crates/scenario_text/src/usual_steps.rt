//! The usual steps of a transaction, read by their bytes up to the space behind them. What isn't read so is read by its parts.
ghost use Rattle.std.specs.Prelude.{◌≡◌, ◌≤◌, ◌++◌, codes, IfOk, IfSome, SomeIff};
ghost use Rattle.scenario_text.specs.FirstLines.{SaysTo};
ghost use Rattle.scenario_text.specs.Pieces.{pieces, space};
ghost use Rattle.scenario_text.specs.Steps as steps;

use crate::draft::SiteDraft;
use crate::fronts::{number_to, site_to};
use mdb_base::{Act, Key, SiteId, Step};
use std::alloc::AllocError;

/// The key of this number.
fn key_at(number: u32) -> Option<Key>
    ensures { SomeIff result (number ≤ 65535) (record { 0 = number }) }
{
    if number <= 65_535 {
        Some(Key(number as u16))
    } else {
        None
    }
}

/// What stands behind `get:`, where the text begins so.
fn behind_get(text: &[u8]) -> Option<&[u8]>
    ensures { IfSome result (λ rest. text.now ≡ codes "get:" ++ rest.now) }
{
    match text {
        [b'g', b'e', b't', b':', rest @ ..] => Some(rest),
        _ => None,
    }
}

/// What stands behind `set:`, where the text begins so.
fn behind_set(text: &[u8]) -> Option<&[u8]>
    ensures { IfSome result (λ rest. text.now ≡ codes "set:" ++ rest.now) }
{
    match text {
        [b's', b'e', b't', b':', rest @ ..] => Some(rest),
        _ => None,
    }
}

/// What stands behind `add:`, where the text begins so.
fn behind_add(text: &[u8]) -> Option<&[u8]>
    ensures { IfSome result (λ rest. text.now ≡ codes "add:" ++ rest.now) }
{
    match text {
        [b'a', b'd', b'd', b':', rest @ ..] => Some(rest),
        _ => None,
    }
}

/// What stands behind `get:` up to its space, and the text behind that.
fn usual_get(text: &[u8]) -> Option<(Act, &[u8])>
    ensures { IfSome result (λ p. SaysTo steps.get_of space p.0 text.now p.1.now) }
{
    let (number, rest) = number_to(text, b' ')?;
    let key = key_at(number)?;
    Some((Act::Get(key), rest))
}

/// What stands behind `set:` up to its space, and the text behind that.
fn usual_set(text: &[u8]) -> Option<(Act, &[u8])>
    ensures { IfSome result (λ p. SaysTo steps.set_of space p.0 text.now p.1.now) }
{
    let (number, behind) = number_to(text, b':')?;
    let key = key_at(number)?;
    let (value, rest) = number_to(behind, b' ')?;
    Some((Act::Set(key, u64::from(value)), rest))
}

/// What stands behind `add:` up to its space, and the text behind that.
fn usual_add(text: &[u8]) -> Option<(Act, &[u8])>
    ensures { IfSome result (λ p. SaysTo steps.add_of space p.0 text.now p.1.now) }
{
    let (number, behind) = number_to(text, b':')?;
    let key = key_at(number)?;
    let (register, more) = number_to(behind, b':')?;
    if register > 31 {
        return None;
    }
    let (amount, rest) = number_to(more, b' ')?;
    let act = Act::Add {
        key,
        register: register as u8,
        amount: u64::from(amount),
    };
    Some((act, rest))
}

/// The act that a text has up to its space, and the text behind that.
fn usual_act(text: &[u8]) -> Option<(Act, &[u8])>
    ensures { IfSome result (λ p. SaysTo steps.act_of space p.0 text.now p.1.now) }
{
    if let Some(behind) = behind_get(text) {
        let (act, rest) = usual_get(behind)?;
        return Some((act, rest));
    }
    if let Some(behind) = behind_set(text) {
        let (act, rest) = usual_set(behind)?;
        return Some((act, rest));
    }
    if let Some(behind) = behind_add(text) {
        let (act, rest) = usual_add(behind)?;
        return Some((act, rest));
    }
    None
}

/// The step that a text has up to its space, of a local transaction at its home or of a global one, and the text behind that.
fn usual_step<'a>(
    sites: &SiteDraft,
    home: Option<SiteId>,
    text: &'a [u8],
) -> Option<(Step, &'a [u8])>
    ensures { IfSome result (λ p. SaysTo (steps.step_of sites.now home) space p.0 text.now p.1.now) }
{
    match home {
        Some(site) => {
            let (act, rest) = usual_act(text)?;
            Some((Step { site, act }, rest))
        }
        None => {
            let (site, behind) = site_to(sites, text, b'/')?;
            let (act, rest) = usual_act(behind)?;
            Some((Step { site, act }, rest))
        }
    }
}

/// Reads the usual steps that these words begin with, each of which has a space behind it, and says which words are left.
pub fn read_usual<'a>(
    read: &mut Vec<Step>,
    sites: &SiteDraft,
    home: Option<SiteId>,
    words: &'a [u8],
) -> Result<&'a [u8], AllocError>
    ensures { IfOk result (λ rest. steps.behind read.new.items (steps.steps_of sites.now home (pieces space rest.now))
        ≡ steps.behind read.old.items (steps.steps_of sites.now home (pieces space words.now))) }
{
    let mut rest = words;
    while let Some((step, more)) = usual_step(sites, home, rest) {
        read.push(step)?;
        rest = more;
    }
    Ok(rest)
}
