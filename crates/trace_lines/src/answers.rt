//! An answer from its words.
ghost use Rattle.std.specs.Prelude.{◌≡◌};
ghost use Rattle.trace_lines.specs.Reading as reading;
ghost use Rattle.trace_lines.specs.Reading.{Gives, Finds};

use crate::error::LineErr;
use crate::marks::{Mark, cut_at};
use crate::numbers::{key_of, site_of, small_of};
use fed_rules::{Answer, Cause};
use line_text::Word::{Attempt, Joined, Number, Plain};
use line_text::{Keyword, Word};
use mdb_base::{Edges, Reply, SiteId, Tid, Why};
use presumptions::Decision;
use std::alloc::Global;

fn refusal_of(words: &[Word]) -> Option<Why>
    ensures { result ≡ reading.refusal_of words.now }
{
    match words {
        [Plain(Keyword::Dies), Attempt(by)] => Some(Why::Die { by: *by }),
        [Plain(Keyword::Late), Attempt(by)] => Some(Why::Late { by: *by }),
        [Plain(Keyword::Invalid), Attempt(by), Number(number)] => Some(Why::Invalid {
            by: *by,
            key: key_of(*number)?,
        }),
        [Plain(Keyword::Moved), Attempt(by)] => Some(Why::TicketMoved { by: *by }),
        _ => None,
    }
}

fn reply_of(words: &[Word]) -> Option<Reply>
    ensures { result ≡ reading.reply_of words.now }
{
    match words {
        [Plain(Keyword::Done)] => Some(Reply::Done),
        [Plain(Keyword::Value), Number(value)] => Some(Reply::Value(*value)),
        [Plain(Keyword::Ticket), Number(ticket)] => Some(Reply::Ticket(*ticket)),
        [Plain(Keyword::Waits), Attempt(by)] => Some(Reply::Wait { by: *by }),
        [Plain(Keyword::Unknown)] => Some(Reply::Unknown),
        _ => Some(Reply::Refused(refusal_of(words)?)),
    }
}

fn no_of(words: &[Word]) -> Option<Option<Why>>
    ensures { result ≡ reading.no_of words.now }
{
    match words {
        [Plain(Keyword::Unknown)] => Some(None),
        _ => Some(Some(refusal_of(words)?)),
    }
}

fn decision_of(keyword: Keyword) -> Option<Decision>
    ensures { result ≡ reading.decision_of keyword }
{
    match keyword {
        Keyword::Commit => Some(Decision::Commit),
        Keyword::Abort => Some(Decision::Abort),
        _ => None,
    }
}

pub fn bare_answer(keyword: Keyword) -> Option<Answer>
    ensures { result ≡ reading.bare_answer keyword }
{
    match keyword {
        Keyword::None => Some(Answer::None),
        Keyword::Down => Some(Answer::Down),
        Keyword::Idle => Some(Answer::Idle),
        Keyword::Spent => Some(Answer::Spent),
        Keyword::End => Some(Answer::End),
        Keyword::Unfinished => Some(Answer::Unfinished),
        Keyword::Unbegun => Some(Answer::Unbegun),
        Keyword::Aborted => Some(Answer::Ended),
        Keyword::Set => Some(Answer::Set),
        Keyword::Awake => Some(Answer::Awake),
        Keyword::Defers => Some(Answer::Defers),
        Keyword::Ignored => Some(Answer::Ignored),
        Keyword::Waits => Some(Answer::TookWaits),
        Keyword::Voted => Some(Answer::Voted),
        Keyword::Acked => Some(Answer::Acked),
        Keyword::Forgets => Some(Answer::Forgets),
        Keyword::Undecided => Some(Answer::Undecided),
        Keyword::Initiates => Some(Answer::Initiates),
        Keyword::Large => Some(Answer::Large),
        Keyword::Checked => Some(Answer::Checked),
        _ => None,
    }
}

pub fn short_answer(keyword: Keyword, tid: Tid) -> Option<Answer>
    ensures { result ≡ reading.short_answer keyword tid }
{
    match keyword {
        Keyword::Committed => Some(Answer::Committed(tid)),
        Keyword::Running => Some(Answer::Running(tid)),
        Keyword::Begun => Some(Answer::Begun(tid)),
        Keyword::Aborted => Some(Answer::Aborted(tid)),
        Keyword::Unheld => Some(Answer::Unheld(tid)),
        Keyword::Asks => Some(Answer::Asks(tid)),
        Keyword::Dropped => Some(Answer::Dropped(tid)),
        Keyword::Waits => Some(Answer::Waits(tid)),
        Keyword::Dies => Some(Answer::Dies(tid)),
        Keyword::Late => Some(Answer::Late(tid)),
        _ => None,
    }
}

fn vote_answer(tid: Tid, words: &[Word]) -> Option<Answer>
    ensures { result ≡ reading.vote_answer tid words.now }
{
    match words {
        [Plain(Keyword::Yes), Number(ticket)] => Some(Answer::VotesYes(tid, *ticket)),
        [Plain(Keyword::No), why @ ..] => Some(Answer::VotesNo(tid, no_of(why)?)),
        _ => None,
    }
}

pub fn attempt_answer(keyword: Keyword, tid: Tid, words: &[Word]) -> Option<Answer>
    ensures { result ≡ reading.attempt_answer keyword tid words.now }
{
    match (keyword, words) {
        (_, []) => short_answer(keyword, tid),
        (Keyword::Invalid, [Number(number)]) => Some(Answer::Invalid(tid, key_of(*number)?)),
        (Keyword::Committed, [Plain(Keyword::Number), Number(number)]) => {
            Some(Answer::Sealed(tid, *number))
        }
        (Keyword::Did, reply) => Some(Answer::Did(tid, reply_of(reply)?)),
        (Keyword::Votes, vote) => vote_answer(tid, vote),
        (Keyword::Settles, [Plain(decision)]) => {
            Some(Answer::Settles(tid, decision_of(*decision)?))
        }
        _ => None,
    }
}

pub fn row_answer(keyword: Keyword, number: u64, words: &[Word]) -> Option<Answer>
    ensures { result ≡ reading.row_answer keyword number words.now }
{
    match (keyword, words) {
        (Keyword::Read, [Number(value)]) => Some(Answer::Read(key_of(number)?, *value)),
        (Keyword::Wrote, [Number(value)]) => Some(Answer::Wrote(key_of(number)?, *value)),
        _ => None,
    }
}

fn plain_answer(first: Keyword, second: Keyword, words: &[Word]) -> Option<Answer>
    ensures { result ≡ reading.plain_answer first second words.now }
{
    match (first, second, words) {
        (Keyword::Stopped, Keyword::Kept, [Number(kept)]) => Some(Answer::Stopped(*kept)),
        (Keyword::Answers, decision, []) => Some(Answer::Answers(decision_of(decision)?)),
        (Keyword::Presumes, decision, []) => Some(Answer::Presumes(decision_of(decision)?)),
        (Keyword::Up, Keyword::Known, [Number(known)]) => Some(Answer::UpCoord {
            known: small_of(*known)?,
        }),
        (
            Keyword::Up,
            Keyword::Epoch,
            [Number(epoch), Plain(Keyword::Doubtful), Number(doubtful)],
        ) => Some(Answer::UpSite {
            epoch: small_of(*epoch)?,
            doubtful: small_of(*doubtful)?,
        }),
        _ => None,
    }
}

fn edges_of(alloc: Global, words: &[Word]) -> Result<Edges, LineErr>
    ensures { Gives result (reading.edges_of words.now) }
{
    let mut edges = Vec::new(alloc);
    for word in words {
        match word {
            Joined(edge) => edges.push(*edge)?,
            _ => return Err(LineErr::NoLine),
        }
    }
    Ok(Edges::of(edges))
}

fn site_cause(site: SiteId, words: &[Word]) -> Option<Cause>
    ensures { result ≡ reading.site_cause site words.now }
{
    match words {
        [Plain(Keyword::Dies), Attempt(by)] => Some(Cause::Dies { site, by: *by }),
        [Plain(Keyword::Late), Attempt(by)] => Some(Cause::TooLate { site, by: *by }),
        [Plain(Keyword::Unknown)] => Some(Cause::Unknown { site }),
        [Plain(Keyword::No)] => Some(Cause::No { site }),
        _ => None,
    }
}

fn cause_of(alloc: Global, words: &[Word]) -> Result<Cause, LineErr>
    ensures { Gives result (reading.cause_of words.now) }
{
    match words {
        [Plain(Keyword::Late)] => Ok(Cause::Late),
        [Plain(Keyword::Site), Number(number), rest @ ..] => {
            let site = site_of(*number).ok_or(LineErr::NoLine)?;
            site_cause(site, rest).ok_or(LineErr::NoLine)
        }
        [Plain(Keyword::Cycle), rest @ ..] => Ok(Cause::Cycle(edges_of(alloc, rest)?)),
        _ => Err(LineErr::NoLine),
    }
}

/// What stands behind a decision, and whether the attempt is forgotten.
fn ending_of(words: &[Word]) -> Option<(&[Word], bool)>
    ensures { Finds (λ ending. (ending.0.now, ending.1)) result (reading.ending_of words.now) }
{
    match cut_at(Mark::Forgets, words) {
        None => Some((words, false)),
        Some((front, [])) => Some((front, true)),
        Some(_) => None,
    }
}

fn decided_answer(alloc: Global, keyword: Keyword, words: &[Word]) -> Result<Answer, LineErr>
    ensures { Gives result (reading.decided_answer keyword words.now) }
{
    let decision = decision_of(keyword).ok_or(LineErr::NoLine)?;
    let (front, forgets) = ending_of(words).ok_or(LineErr::NoLine)?;
    let cause = match (decision, front) {
        (Decision::Commit, []) => None,
        (Decision::Commit, _) => return Err(LineErr::NoLine),
        (Decision::Abort, front) => Some(cause_of(alloc, front)?),
    };
    Ok(Answer::Decides {
        decision,
        cause,
        forgets,
    })
}

fn double_answer(
    alloc: Global,
    first: Keyword,
    second: Keyword,
    words: &[Word],
) -> Result<Answer, LineErr>
    ensures { Gives result (reading.double_answer first second words.now) }
{
    match first {
        Keyword::Decides => decided_answer(alloc, second, words),
        _ => plain_answer(first, second, words).ok_or(LineErr::NoLine),
    }
}

fn answer_behind(alloc: Global, keyword: Keyword, words: &[Word]) -> Result<Answer, LineErr>
    ensures { Gives result (reading.answer_behind keyword words.now) }
{
    match words {
        [] => bare_answer(keyword).ok_or(LineErr::NoLine),
        [Attempt(tid), rest @ ..] => { attempt_answer(keyword, *tid, rest).ok_or(LineErr::NoLine) }
        [Number(number), rest @ ..] => row_answer(keyword, *number, rest).ok_or(LineErr::NoLine),
        [Plain(second), rest @ ..] => double_answer(alloc, keyword, *second, rest),
        [_, ..] => Err(LineErr::NoLine),
    }
}

/// The answer of these words.
pub fn answer_of(alloc: Global, words: &[Word]) -> Result<Answer, LineErr>
    ensures { Gives result (reading.answer_of words.now) }
{
    match words {
        [] => Ok(Answer::Only),
        [Plain(keyword), rest @ ..] => answer_behind(alloc, *keyword, rest),
        [_, ..] => Err(LineErr::NoLine),
    }
}
