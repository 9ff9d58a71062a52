//! What a text begins with, told by its bytes in one pass. What isn't told so is read by its pieces.
ghost use Rattle.std.specs.Prelude.{◌≡◌, ◌-◌, ◌<◌, ◌∷◌, ◌++◌, length, slice_index_or, IsTrue, IfSome, decimal};
ghost use Rattle.std.specs.Int.{IsInRange};
ghost use Rattle.line_text.specs.Range.{is_large, is_word};
ghost use Rattle.line_text.specs.Words.{keyword_text, word_text};
ghost use Rattle.line_text.specs.declared.word.Word.TheVariants.{Number, Plain};

use crate::keywords::{first_byte, group_of, spelling};
use crate::lexing::{place_at, tid_at};
use line_text::{Keyword, Word};

/// The most that a number may be to which a digit is added.
const MOST_BEFORE: u64 = 99_999_999_999_999_999;

/// What the digit at a place of a text is worth, where one stands there.
fn digit_at(text: &[u8], place: usize) -> Option<u8>
    ensures { IfSome result (λ digit. (place < length text.now) × IsInRange 48 57 (slice_index_or text.now place 0) × (digit ≡ slice_index_or text.now place 0 - 48)) }
{
    if place < text.len() && b'0' <= text[place] && text[place] <= b'9' {
        Some(text[place] - b'0')
    } else {
        None
    }
}

/// Whether there is a digit, and `0` is the first one only where it stands alone.
fn are_plain(digits: &[u8]) -> bool
    ensures { IsTrue result → (0 < length digits.now) × (slice_index_or digits.now 0 0 ≡ 48 → length digits.now ≡ 1) }
{
    match digits {
        [] => false,
        [_] => true,
        [first, ..] => *first != b'0',
    }
}

/// The number that a text begins with, where it isn't too long, and the text behind it.
fn front_number(text: &[u8]) -> Option<(u64, &[u8])>
    ensures { IfSome result (λ p. IsTrue (is_large p.0) × (text.now ≡ decimal p.0 ++ p.1.now)) }
{
    let mut number: u64 = 0;
    let mut place: usize = 0;
    while let Some(digit) = digit_at(text, place) {
        if number > MOST_BEFORE {
            return None;
        }
        number = number * 10 + u64::from(digit);
        place += 1;
    }
    let (digits, rest) = text.split_at(place);
    if are_plain(digits) {
        Some((number, rest))
    } else {
        None
    }
}

/// The number, the attempt or the place that a text begins with, and the text behind it.
#[inline(always)]
fn front_numbers(text: &[u8]) -> Option<(Word, &[u8])>
    ensures { IfSome result (λ p. IsTrue (is_word p.0) × (text.now ≡ word_text p.0 ++ p.1.now)) }
{
    let (first, behind) = front_number(text)?;
    match behind {
        [b'.', more @ ..] => {
            let (attempt, rest) = front_number(more)?;
            Some((Word::Attempt(tid_at(first, attempt)?), rest))
        }
        [b'/', more @ ..] => {
            let (place, rest) = front_number(more)?;
            Some((Word::Sent(place_at(first, place)?), rest))
        }
        _ => Some((Word::Number(first), behind)),
    }
}

/// What stands behind a word, where a text begins with it.
#[inline(always)]
pub fn behind<'a>(text: &'a [u8], word: &str) -> Option<&'a [u8]>
    ensures { IfSome result (λ rest. text.now ≡ word.now ++ rest.now) }
{
    let mut rest = text;
    for byte in word.as_bytes() {
        match rest {
            [first, more @ ..] if *first == *byte => rest = more,
            _ => return None,
        }
    }
    Some(rest)
}

/// The keyword that a text begins with, and the text behind it. Of two that begin alike the longer one is tried first.
pub fn front_keyword(text: &[u8]) -> Option<(Keyword, &[u8])>
    ensures { IfSome result (λ p. text.now ≡ keyword_text p.0 ++ p.1.now) }
{
    for keyword in group_of(first_byte(text)) {
        if let Some(rest) = behind(text, spelling(*keyword)) {
            return Some((*keyword, rest));
        }
    }
    None
}

/// The number that stands behind a space at the front of a text, and the text behind it.
pub fn number_behind(text: &[u8]) -> Option<(u64, &[u8])>
    ensures { IfSome result (λ p. IsTrue (is_word (Number p.0)) × (text.now ≡ 32 ∷ (word_text (Number p.0) ++ p.1.now))) }
{
    match text {
        [b' ', more @ ..] => front_number(more),
        _ => None,
    }
}

/// The number, the attempt or the place that stands behind a space at the front of a text, and the text behind it.
#[inline(always)]
pub fn numbers_behind(text: &[u8]) -> Option<(Word, &[u8])>
    ensures { IfSome result (λ p. IsTrue (is_word p.0) × (text.now ≡ 32 ∷ (word_text p.0 ++ p.1.now))) }
{
    match text {
        [b' ', more @ ..] => front_numbers(more),
        _ => None,
    }
}

/// The keyword that stands behind a space at the front of a text, and the text behind it.
pub fn keyword_behind(text: &[u8]) -> Option<(Keyword, &[u8])>
    ensures { IfSome result (λ p. text.now ≡ 32 ∷ (word_text (Plain p.0) ++ p.1.now)) }
{
    match text {
        [b' ', more @ ..] => front_keyword(more),
        _ => None,
    }
}
