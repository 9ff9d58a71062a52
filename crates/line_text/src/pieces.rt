//! Numbers and attempts behind a text. After want of memory the bytes still begin with what they were.
ghost use Rattle.std.specs.Prelude.{◌≡◌, ◌∷◌, ◌++◌, OnOk, OnErr, decimal};
ghost use Rattle.mdb_base.specs.Texts.{tid_text, BeginsWith};

use mdb_base::{Memory, SiteId, Tid, put_number, put_text, put_tid};

/// Appends the text and a number.
#[inline(always)]
pub fn put_count(out: &mut Vec<u8>, text: &str, number: u64) -> Result<(), Memory>
    ensures ok { OnOk result (out.new.items ≡ out.old.items ++ (text.now ++ decimal number)) }
    ensures err { OnErr result (BeginsWith out.old.items out.new.items) }
{
    put_text(out, text)?;
    put_number(out, number)
}

/// Appends the text and an attempt.
#[inline(always)]
pub fn put_attempt(out: &mut Vec<u8>, text: &str, tid: Tid) -> Result<(), Memory>
    ensures ok { OnOk result (out.new.items ≡ out.old.items ++ (text.now ++ tid_text tid)) }
    ensures err { OnErr result (BeginsWith out.old.items out.new.items) }
{
    put_text(out, text)?;
    put_tid(out, tid)
}

/// Appends the text and two numbers, with a space between them.
#[inline(always)]
pub fn put_counts(out: &mut Vec<u8>, text: &str, first: u64, next: u64) -> Result<(), Memory>
    ensures ok { OnOk result (out.new.items ≡ out.old.items ++ (text.now ++ (decimal first ++ 32 ∷ decimal next))) }
    ensures err { OnErr result (BeginsWith out.old.items out.new.items) }
{
    put_count(out, text, first)?;
    put_count(out, " ", next)
}

/// Appends the text, a site and an attempt, with a space between them.
pub fn put_site_attempt(out: &mut Vec<u8>, text: &str, site: SiteId, tid: Tid) -> Result<(), Memory>
    ensures ok { OnOk result (out.new.items ≡ out.old.items ++ (text.now ++ (decimal site.0 ++ 32 ∷ tid_text tid))) }
    ensures err { OnErr result (BeginsWith out.old.items out.new.items) }
{
    put_count(out, text, u64::from(site.0))?;
    put_attempt(out, " ", tid)
}

/// Appends a text and an attempt, and a text and a number.
pub fn put_attempt_count(
    out: &mut Vec<u8>,
    text: &str,
    tid: Tid,
    between: &str,
    number: u64,
) -> Result<(), Memory>
    ensures ok { OnOk result (out.new.items ≡ out.old.items ++ (text.now ++ (tid_text tid ++ (between.now ++ decimal number)))) }
    ensures err { OnErr result (BeginsWith out.old.items out.new.items) }
{
    put_attempt(out, text, tid)?;
    put_count(out, between, number)
}
