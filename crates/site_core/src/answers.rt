//! What a site says to an access of a local attempt and to a sealing that is refused.
ghost use Rattle.std.specs.Prelude.{◌≡◌, None, Ok};
ghost use Rattle.mdb_base.specs.declared.names.Tid.{Tid};
ghost use Rattle.fed_rules.specs.Site.{act_answer, refusal_answer};

use actor_store::StepErr;
use fed_rules::{Answer, SiteStep};
use mdb_base::{PlainAct, Reply, Why};

/// The answer to an access of a local attempt.
pub fn act_answer(reply: Reply, act: PlainAct) -> Answer
    ensures { (tid : Tid) → result ≡ act_answer tid reply act }
{
    match (reply, act) {
        (Reply::Wait { by }, _) => Answer::Waits(by),
        (Reply::Refused(Why::Die { by }), _) => Answer::Dies(by),
        (Reply::Refused(Why::Late { by }), _) => Answer::Late(by),
        (Reply::Value(value), PlainAct::Read(key)) => Answer::Read(key, value),
        (Reply::Done, PlainAct::Write(key, value)) => Answer::Wrote(key, value),
        _ => Answer::Idle,
    }
}

/// The answer to a commit that is refused.
pub fn refusal_answer(why: Why) -> Answer
    ensures { result ≡ refusal_answer why }
{
    match why {
        Why::Invalid { by, key } => Answer::Invalid(by, key),
        _ => Answer::Idle,
    }
}

/// A step that says something and sends nothing.
pub fn says(answer: Answer) -> SiteStep
    ensures { result ≡ record { answer = answer; sends = None } }
{
    SiteStep {
        answer,
        sends: None,
    }
}

/// The answer to an event at which nothing fails: it says something and sends nothing.
pub fn said(answer: Answer) -> Result<SiteStep, StepErr>
    ensures { result ≡ Ok (record { answer = answer; sends = None }) }
{
    Ok(says(answer))
}
