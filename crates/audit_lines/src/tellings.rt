//! Answers are the same where their numbers are.
ghost use Rattle.std.specs.Prelude.{◌≡◌, Option};
ghost use Rattle.mdb_base.specs.declared.replies.Reply.{Reply as TheReply};
ghost use Rattle.mdb_base.specs.declared.replies.Why.{Why as TheWhy};
ghost use Rattle.fed_rules.specs.declared.answers.Answer.{Answer as TheAnswer};
ghost use Rattle.fed_rules.specs.declared.answers.Cause.{Cause as TheCause};
ghost use Rattle.audit_rules.specs.Same as same;
ghost use Rattle.audit_rules.specs.Same.{same_numbers};

use fed_rules::{Answer, Cause};
use mdb_base::{Reply, Why};

/// Why an engine refused.
fn whys_tell()
    ensures { (p q : TheWhy) → ⟦<Why as PartialEq>⟧.eq p q ≡ same_numbers (same.why_numbers p) (same.why_numbers q) }
{}

/// What an engine replied.
fn replies_tell()
    ensures { (p q : TheReply) → ⟦<Reply as PartialEq>⟧.eq p q ≡ same_numbers (same.reply_numbers p) (same.reply_numbers q) }
{
    whys_tell();
}

/// Why a site voted no.
fn noes_tell()
    ensures { (p q : Option TheWhy) → ⟦<Option<Why> as PartialEq>⟧.eq p q ≡ same_numbers (same.no_numbers p) (same.no_numbers q) }
{
    whys_tell();
}

/// Why an attempt was decided abort.
fn causes_tell()
    ensures { (p q : Option TheCause) → ⟦<Option<Cause> as PartialEq>⟧.eq p q ≡ same_numbers (same.cause_numbers p) (same.cause_numbers q) }
{}

/// Answers are the same where their numbers are.
pub(crate) fn answers_tell()
    ensures { (p q : TheAnswer) → ⟦<Answer as PartialEq>⟧.eq p q ≡ same.same_answer p q }
{
    replies_tell();
    noes_tell();
    causes_tell();
}
