//! Numbers and attempts as text. After want of memory the bytes still begin with what they were.
ghost use Rattle.std.specs.Prelude.{◌≡◌, ◌<◌, ◌≤◌, ◌+◌, ◌++◌, OnOk, OnErr, decimal, vec_len, vec_capacity};
ghost use Rattle.mdb_base.specs.Texts.{BeginsWith, pair, tid_text};

use crate::names::{Memory, Tid};
use itoa::Buffer;

/// Appends this text.
#[inline(always)]
pub fn put_text(out: &mut Vec<u8>, text: &str) -> Result<(), Memory>
    ensures ok { OnOk result (out.new.items ≡ out.old.items ++ text.now) }
    ensures err { OnErr result (BeginsWith out.old.items out.new.items) }
{
    out.extend_from_slice(text.as_bytes())?;
    Ok(())
}

/// Appends a number: `0`, or its decimal digits without a leading zero. Most numbers have one digit.
#[inline(always)]
#[tactic(auto, using(std::proofs::lemmas::Fmt::decimal_digit))]
pub fn put_number(out: &mut Vec<u8>, number: u64) -> Result<(), Memory>
    ensures ok { OnOk result (out.new.items ≡ out.old.items ++ decimal number) }
    ensures err { OnErr result (BeginsWith out.old.items out.new.items) }
{
    if number < 10 {
        out.push(b'0' + number as u8)?;
        return Ok(());
    }
    put_longer(out, number)
}

/// Appends a number: up to four digits are put down in pairs, where there is room for them.
#[inline(never)]
fn put_longer(out: &mut Vec<u8>, number: u64) -> Result<(), Memory>
    ensures ok { OnOk result (out.new.items ≡ out.old.items ++ decimal number) }
    ensures err { OnErr result (BeginsWith out.old.items out.new.items) }
{
    if number >= 10_000 || out.capacity() - out.len() < 4 {
        return put_large(out, number);
    }
    put_short(out, number as u32);
    Ok(())
}

/// Appends a number of at most four digits, where there is room for them.
#[inline(always)]
#[tactic(auto, using(crate::proofs::Digits::decimal_in_pairs))]
fn put_short(out: &mut Vec<u8>, number: u32)
    requires few { number < 10_000 }
    requires place { vec_len out.old + 4 ≤ vec_capacity out.old }
    ensures { out.new.items ≡ out.old.items ++ decimal number }
{
    if number < 100 {
        put_small(out, number);
    } else {
        put_small(out, number / 100);
        put_pair(out, number % 100);
    }
}

/// Appends a number of one or two digits, where there is room for two.
#[inline(always)]
#[tactic(auto, using(std::proofs::lemmas::Fmt::decimal_digit, crate::proofs::Digits::decimal_pair))]
fn put_small(out: &mut Vec<u8>, number: u32)
    requires few { number < 100 }
    requires place { vec_len out.old + 2 ≤ vec_capacity out.old }
    ensures items { out.new.items ≡ out.old.items ++ decimal number }
    ensures count { vec_len out.new ≤ vec_len out.old + 2 }
    ensures room { vec_capacity out.new ≡ vec_capacity out.old }
{
    if number < 10 {
        out.push_reserved(b'0' + number as u8);
    } else {
        put_pair(out, number);
    }
}

/// Appends both digits of a number below 100, where there is room for them.
#[inline(always)]
fn put_pair(out: &mut Vec<u8>, number: u32)
    requires few { number < 100 }
    requires place { vec_len out.old + 2 ≤ vec_capacity out.old }
    ensures items { out.new.items ≡ out.old.items ++ pair number }
    ensures count { vec_len out.new ≡ vec_len out.old + 2 }
    ensures room { vec_capacity out.new ≡ vec_capacity out.old }
{
    out.push_reserved(b'0' + (number / 10) as u8);
    out.push_reserved(b'0' + (number % 10) as u8);
}

/// Appends a number of any length.
#[inline(never)]
fn put_large(out: &mut Vec<u8>, number: u64) -> Result<(), Memory>
    ensures ok { OnOk result (out.new.items ≡ out.old.items ++ decimal number) }
    ensures err { OnErr result (BeginsWith out.old.items out.new.items) }
{
    let mut buffer = Buffer::new();
    put_text(out, buffer.format(number))
}

/// Appends an attempt: its transaction, a dot, and its number.
pub fn put_tid(out: &mut Vec<u8>, tid: Tid) -> Result<(), Memory>
    ensures ok { OnOk result (out.new.items ≡ out.old.items ++ tid_text tid) }
    ensures err { OnErr result (BeginsWith out.old.items out.new.items) }
{
    put_number(out, u64::from(tid.tx.0))?;
    out.push(b'.')?;
    put_number(out, u64::from(tid.attempt))
}
