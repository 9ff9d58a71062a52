//! Words from bytes.
ghost use Rattle.std.specs.Prelude.{◌≡◌, ◌<◌, ◌↔◌, List, length, map, IsTrue, IfOk, IsErrOf, decimal, slice_index_or};
ghost use Rattle.std.specs.Int.{IsInRange};
ghost use Rattle.mdb_base.specs.Words.{Each};
ghost use Rattle.mdb_base.specs.Texts.{tid_text};
ghost use Rattle.trace_lines.specs.Lexing as lexing;
ghost use Rattle.trace_lines.specs.Lexing.{Spells, pieces, are_large, numbers_text, site_text, is_target, target_text};
ghost use Rattle.line_text.specs.Range.{is_large, is_site, is_tid, is_place, is_edge, is_word};
ghost use Rattle.line_text.specs.declared.word.Word.{Word};
ghost use Rattle.line_text.specs.Words.{place_text, edge_text, word_text};

use crate::error::LineErr;
use crate::keywords::keyword_of;
use crate::numbers::site_of;
use fed_rules::Place;
use line_text::Word;
use mdb_base::{Edge, SiteId, Tid, Tx};
use std::alloc::Global;
use std::str;

/// How many words a line has room for at first: most have no more.
const WORDS: usize = 12;

/// Whether a text begins as a number does: with a digit, and with `0` only where that stands alone.
fn begins_as_number(text: &str) -> bool
    ensures { IsTrue result ↔ (IsInRange 48 57 (slice_index_or text.now 0 0) × (slice_index_or text.now 0 0 ≡ 48 → length text.now ≡ 1)) }
{
    matches!(text.as_bytes(), [b'1'..=b'9', ..] | [b'0'])
}

/// The number that is printed so.
fn number_of(text: &str) -> Option<u64>
    ensures { Spells is_large decimal text.now result }
{
    if begins_as_number(text) {
        text.parse::<u64>().ok()
    } else {
        None
    }
}

/// Two numbers with a mark between them.
fn numbers_of(text: &str, mark: char) -> Option<(u64, u64)>
    requires { mark < 48 }
    ensures { Spells are_large (numbers_text mark) text.now result }
{
    let (first, second) = text.split_once(mark)?;
    Some((number_of(first)?, number_of(second)?))
}

pub fn tid_at(tx: u64, attempt: u64) -> Option<Tid>
    ensures { result ≡ lexing.tid_at (tx, attempt) }
{
    match (tx, attempt) {
        (1..=1024, 0..=31) => Some(Tid {
            tx: Tx(tx as u32),
            attempt: attempt as u8,
        }),
        _ => None,
    }
}

fn tid_of(text: &str) -> Option<Tid>
    ensures { Spells is_tid tid_text text.now result }
{
    let (tx, attempt) = numbers_of(text, '.')?;
    tid_at(tx, attempt)
}

pub fn place_at(site: u64, place: u64) -> Option<Place>
    ensures { result ≡ lexing.place_at (site, place) }
{
    match (site, place) {
        (1..=8, 0..=0xffff_ffff) => Some(Place {
            site: SiteId(site as u8),
            place: place as u32,
        }),
        _ => None,
    }
}

fn place_of(text: &str) -> Option<Place>
    ensures { Spells is_place place_text text.now result }
{
    let (site, place) = numbers_of(text, '/')?;
    place_at(site, place)
}

fn site_named(text: &str) -> Option<SiteId>
    ensures { Spells is_site site_text text.now result }
{
    let number = number_of(text)?;
    site_of(number)
}

/// The attempt that an edge goes to, and its site.
fn target_of(text: &str) -> Option<(Tid, SiteId)>
    ensures { Spells is_target target_text text.now result }
{
    let (to, site) = text.split_once('@')?;
    Some((tid_of(to)?, site_named(site)?))
}

fn edge_of(text: &str) -> Option<Edge>
    ensures { Spells is_edge edge_text text.now result }
{
    let (from, target) = text.split_once('>')?;
    let from = tid_of(from)?;
    let (to, site) = target_of(target)?;
    Some(Edge { from, to, site })
}

/// Whether a text begins with a digit, as each word does but a keyword.
fn begins_with_digit(text: &str) -> bool
    ensures { IsTrue result ↔ IsInRange 48 57 (slice_index_or text.now 0 0) }
{
    matches!(text.as_bytes(), [b'0'..=b'9', ..])
}

/// The word that is spelled so.
pub fn word_of(text: &str) -> Option<Word>
    ensures { Spells is_word word_text text.now result }
{
    if !begins_with_digit(text) {
        return Some(Word::Plain(keyword_of(text.as_bytes())?));
    }
    if let Some(number) = number_of(text) {
        return Some(Word::Number(number));
    }
    if let Some(tid) = tid_of(text) {
        return Some(Word::Attempt(tid));
    }
    if let Some(sent) = place_of(text) {
        return Some(Word::Sent(sent));
    }
    let edge = edge_of(text)?;
    Some(Word::Joined(edge))
}

/// The words of a text, which stand with one space between each two.
fn words_of_text(alloc: Global, text: &str) -> Result<Vec<Word>, LineErr>
    ensures found { IfOk result (λ words. Each (λ word. IsTrue (is_word word)) words.items × (map word_text words.items ≡ pieces text.now)) }
    ensures none { IsErrOf result LineErr.NoLine → (words : List Word) → Each (λ word. IsTrue (is_word word)) words → map word_text words ≡ pieces text.now → ⊥ }
{
    let mut words = Vec::with_capacity(alloc, WORDS)?;
    for word in text.split(' ') {
        words.push(word_of(word).ok_or(LineErr::NoLine)?)?;
    }
    Ok(words)
}

/// The words of bytes that are text.
pub fn words_of(alloc: Global, text: &[u8]) -> Result<Vec<Word>, LineErr>
    ensures found { IfOk result (λ words. Each (λ word. IsTrue (is_word word)) words.items × (map word_text words.items ≡ pieces text.now)) }
    ensures none { IsErrOf result LineErr.NoLine → (words : List Word) → Each (λ word. IsTrue (is_word word)) words → map word_text words ≡ pieces text.now → ⊥ }
{
    let Ok(text) = str::from_utf8(text) else {
        return Err(LineErr::NoLine);
    };
    words_of_text(alloc, text)
}
