//! What a word of a line spells: numbers in their ranges, and names of short lists.
ghost use Rattle.std.specs.Prelude.{◌≡◌, ◌<◌, ◌≤◌, ◌+◌, ◌-◌, ◌*◌, ◌^◌, IfOk, IsTrue, SomeIff};
ghost use Rattle.std.specs.List.{list_all};
ghost use Rattle.scenario_text.specs.Names as names;
ghost use Rattle.scenario_text.specs.Names.{is_digit};

use crate::bad::BadWhy;
use crate::pieces::two_pieces;
use mdb_base::{Engine, Fate, Key, SiteId, Tid, Tx};
use presumptions::Protocol;

/// Whether each byte is a decimal digit.
fn are_digits(word: &[u8]) -> bool
    ensures { result ≡ list_all is_digit word.now }
{
    word.iter().all(|byte| b'0' <= *byte && *byte <= b'9')
}

/// Whether the word is `0`, or decimal digits of which the first isn't `0`.
#[tactic(auto, unfolding(crate::specs::Names::is_number))]
fn is_number(word: &[u8]) -> bool
    ensures { result ≡ names.is_number word.now }
{
    match word {
        [] => false,
        [_] => are_digits(word),
        [first, ..] => *first != b'0' && are_digits(word),
    }
}

/// The number with one digit more behind it, where it is below 2^64.
fn with_digit(number: u64, digit: u8) -> Option<u64>
    requires { 48 ≤ digit }
    ensures { SomeIff result (number * 10 + (digit - 48) < 2 ^ 64) (number * 10 + (digit - 48)) }
{
    number.checked_mul(10)?.checked_add(u64::from(digit - b'0'))
}

/// The number that the digits spell, where it is below 2^64.
fn decimal(digits: &[u8]) -> Option<u64>
    requires { IsTrue (list_all is_digit digits.now) }
    ensures { SomeIff result (names.decimal 0 digits.now < 2 ^ 64) (names.decimal 0 digits.now) }
{
    let mut number: u64 = 0;
    for digit in digits {
        number = with_digit(number, *digit)?;
    }
    Some(number)
}

/// The number that a word spells, from `low` to `high`, both among them. A word that is neither `0` nor decimal digits without a leading zero
/// is refused by `Number`, and a number beyond these bounds by `Range`.
#[tactic(auto, using(crate::proofs::DecimalLemmas::is_number_digits), unfolding(crate::specs::Names::number_in))]
pub fn number_in(low: u64, high: u64, word: &[u8]) -> Result<u64, BadWhy>
    ensures exact { result ≡ names.number_in low high word.now }
    ensures range { IfOk result (λ n. (low ≤ n) × (n ≤ high)) }
{
    if !is_number(word) {
        return Err(BadWhy::Number);
    }
    match decimal(word) {
        Some(number) if low <= number && number <= high => Ok(number),
        _ => Err(BadWhy::Range),
    }
}

/// A key, 0 to 65,535.
#[tactic(auto, unfolding(crate::specs::Names::key_of))]
pub fn key_of(word: &[u8]) -> Result<Key, BadWhy>
    ensures { result ≡ names.key_of word.now }
{
    let number = number_in(0, 65_535, word)?;
    Ok(Key(number as u16))
}

/// A value or an amount, 0 to 2^64 - 1.
#[tactic(auto, unfolding(crate::specs::Names::value_of))]
pub fn value_of(word: &[u8]) -> Result<u64, BadWhy>
    ensures { result ≡ names.value_of word.now }
{
    number_in(0, u64::MAX, word)
}

/// A transaction, 1 to 1,024.
#[tactic(auto, unfolding(crate::specs::Names::tx_of))]
pub fn tx_of(word: &[u8]) -> Result<Tx, BadWhy>
    ensures { result ≡ names.tx_of word.now }
{
    let number = number_in(1, 1_024, word)?;
    Ok(Tx(number as u32))
}

/// A site, 1 to 8.
#[tactic(auto, unfolding(crate::specs::Names::site_number))]
pub fn site_number(word: &[u8]) -> Result<SiteId, BadWhy>
    ensures { result ≡ names.site_number word.now }
{
    let number = number_in(1, 8, word)?;
    Ok(SiteId(number as u8))
}

/// An attempt `T.A`, the attempt 0 to 31.
#[tactic(auto, unfolding(crate::specs::Names::tid_of))]
pub fn tid_of(word: &[u8]) -> Result<Tid, BadWhy>
    ensures { result ≡ names.tid_of word.now }
{
    let (tx, attempt) = two_pieces(word, b'.').ok_or(BadWhy::Spelling)?;
    let tx = tx_of(tx)?;
    let attempt = number_in(0, 31, attempt)?;
    Ok(Tid {
        tx,
        attempt: attempt as u8,
    })
}

/// A concurrency rule by its name.
#[tactic(auto, unfolding(crate::specs::Names::engine_of))]
pub fn engine_of(word: &[u8]) -> Result<Engine, BadWhy>
    ensures { result ≡ names.engine_of word.now }
{
    if word == b"locking".as_slice() {
        Ok(Engine::Locking)
    } else if word == b"timestamp".as_slice() {
        Ok(Engine::Timestamp)
    } else if word == b"validation".as_slice() {
        Ok(Engine::Validation)
    } else if word == b"multiversion".as_slice() {
        Ok(Engine::Multiversion)
    } else {
        Err(BadWhy::Spelling)
    }
}

/// A commit protocol by what it presumes.
#[tactic(auto, unfolding(crate::specs::Names::protocol_of))]
pub fn protocol_of(word: &[u8]) -> Result<Protocol, BadWhy>
    ensures { result ≡ names.protocol_of word.now }
{
    if word == b"nothing".as_slice() {
        Ok(Protocol::Nothing)
    } else if word == b"abort".as_slice() {
        Ok(Protocol::Abort)
    } else if word == b"commit".as_slice() {
        Ok(Protocol::Commit)
    } else {
        Err(BadWhy::Spelling)
    }
}

/// When tickets may be taken, by the name of the policy: whether it is the conservative one.
#[tactic(auto, unfolding(crate::specs::Names::policy_of))]
pub fn policy_of(word: &[u8]) -> Result<bool, BadWhy>
    ensures { result ≡ names.policy_of word.now }
{
    if word == b"always".as_slice() {
        Ok(false)
    } else if word == b"conservative".as_slice() {
        Ok(true)
    } else {
        Err(BadWhy::Spelling)
    }
}

/// `hold:N`, 1 to 64.
#[tactic(auto, unfolding(crate::specs::Names::hold_of))]
fn hold_of(word: &[u8]) -> Result<Fate, BadWhy>
    ensures { result ≡ names.hold_of word.now }
{
    let (name, messages) = two_pieces(word, b':').ok_or(BadWhy::Spelling)?;
    if name != b"hold".as_slice() {
        return Err(BadWhy::Spelling);
    }
    let messages = number_in(1, 64, messages)?;
    Ok(Fate::Hold(messages as u8))
}

/// The fate of a message: `drop`, `twice` or `hold:N`.
#[tactic(auto, unfolding(crate::specs::Names::fate_of))]
pub fn fate_of(word: &[u8]) -> Result<Fate, BadWhy>
    ensures { result ≡ names.fate_of word.now }
{
    if word == b"drop".as_slice() {
        Ok(Fate::Drop)
    } else if word == b"twice".as_slice() {
        Ok(Fate::Twice)
    } else {
        hold_of(word)
    }
}

/// The way of a channel: whether it leads to a site.
#[tactic(auto, unfolding(crate::specs::Names::way_of))]
pub fn way_of(word: &[u8]) -> Result<bool, BadWhy>
    ensures { result ≡ names.way_of word.now }
{
    if word == b"to".as_slice() {
        Ok(true)
    } else if word == b"from".as_slice() {
        Ok(false)
    } else {
        Err(BadWhy::Spelling)
    }
}
