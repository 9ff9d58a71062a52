//! What a text begins with, told by its bytes in one pass.
ghost use Rattle.std.specs.Prelude.{◌≡◌, ◌-◌, ◌<◌, ◌≤◌, ◌∷◌, length, slice_index, IfSome, SomeIff};
ghost use Rattle.scenario_text.specs.FirstLines as first_lines;
ghost use Rattle.scenario_text.specs.FirstLines.{BeginsWith, NamesSite};

use crate::draft::SiteDraft;
use mdb_base::SiteId;

/// The most digits of a number that is read by its bytes.
const MOST_DIGITS: usize = 9;

/// The most that a number may be to which a digit is added.
const MOST_BEFORE: u32 = 99_999_999;

/// What the digit at a place of a text is worth, where one stands there.
fn digit_at(text: &[u8], place: usize) -> Option<u8>
    ensures { SomeIff result ((place < length text.now) × (48 ≤ slice_index text.now place) × (slice_index text.now place ≤ 57)) (slice_index text.now place - 48) }
{
    if place < text.len() && b'0' <= text[place] && text[place] <= b'9' {
        Some(text[place] - b'0')
    } else {
        None
    }
}

/// Whether digits are a number that is read by its bytes: at most nine, of which the first isn't `0` where there are more.
#[tactic(auto, unfolding(crate::specs::FirstLines::are_plain))]
fn are_plain(digits: &[u8]) -> bool
    ensures { result ≡ first_lines.are_plain digits.now }
{
    match digits {
        [] => false,
        [_] => true,
        [first, ..] => *first != b'0' && digits.len() <= MOST_DIGITS,
    }
}

/// The number of at most nine digits that a text begins with, and the text behind it.
fn front_number(text: &[u8]) -> Option<(u32, &[u8])>
    ensures { IfSome result (λ p. BeginsWith p.0 text.now p.1.now) }
{
    let mut number: u32 = 0;
    let mut place: usize = 0;
    while let Some(digit) = digit_at(text, place) {
        if number > MOST_BEFORE {
            return None;
        }
        number = number * 10 + u32::from(digit);
        place += 1;
    }
    let (word, rest) = text.split_at(place);
    if are_plain(word) {
        Some((number, rest))
    } else {
        None
    }
}

/// What stands behind a mark, where the text begins with one.
fn behind_mark(text: &[u8], mark: u8) -> Option<&[u8]>
    ensures { IfSome result (λ rest. text.now ≡ mark ∷ rest.now) }
{
    match text {
        [first, rest @ ..] if *first == mark => Some(rest),
        _ => None,
    }
}

/// The number that a text has up to a mark, and the text behind that.
#[tactic(auto, using(crate::proofs::FrontLemmas::number_ended))]
pub fn number_to(text: &[u8], mark: u8) -> Option<(u32, &[u8])>
    ensures { IfSome result (λ p. BeginsWith p.0 text.now (mark ∷ p.1.now)) }
{
    let (number, rest) = front_number(text)?;
    let behind = behind_mark(rest, mark)?;
    Some((number, behind))
}

/// The first byte, where a mark stands behind it, and the text behind that.
fn byte_to(text: &[u8], mark: u8) -> Option<(u8, &[u8])>
    ensures { IfSome result (λ p. text.now ≡ p.0 ∷ mark ∷ p.1.now) }
{
    match text {
        [byte, second, rest @ ..] if *second == mark => Some((*byte, rest)),
        _ => None,
    }
}

/// The declared site whose digit a text has up to a mark, and the text behind that.
#[tactic(auto, using(crate::proofs::FrontLemmas::names_site))]
pub fn site_to<'a>(sites: &SiteDraft, text: &'a [u8], mark: u8) -> Option<(SiteId, &'a [u8])>
    ensures { IfSome result (λ p. NamesSite sites.now mark p.0 text.now p.1.now) }
{
    let (digit, rest) = byte_to(text, mark)?;
    if digit < b'1' || digit > b'8' {
        return None;
    }
    let site = SiteId(digit - b'0');
    if sites.declares(site) {
        Some((site, rest))
    } else {
        None
    }
}
