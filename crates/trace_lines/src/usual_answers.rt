//! The usual answers, told by their bytes.
ghost use Rattle.std.specs.Prelude.{◌≡◌, ◌∷◌, ◌++◌, codes, IfSome, IsTrue};
ghost use Rattle.line_text.specs.Range.{is_word};
ghost use Rattle.line_text.specs.Words.{keyword_text, word_text};
ghost use Rattle.line_text.specs.declared.word.Word.TheVariants.{Attempt, Number};
ghost use Rattle.trace_lines.specs.Usual.{Says};

use crate::answers::{attempt_answer, bare_answer, row_answer, short_answer};
use crate::fronts::{keyword_behind, number_behind, numbers_behind};
use fed_rules::Answer;
use line_text::{Keyword, Word};
use mdb_base::Tid;
use presumptions::Decision;

/// The answer of a keyword and a number, by the text behind them.
fn row_said(keyword: Keyword, number: u64, text: &[u8]) -> Option<(Answer, &[u8])>
    requires { IsTrue (is_word (Number number)) }
    ensures { IfSome result (λ p. Says p.0 (32 ∷ (keyword_text keyword ++ 32 ∷ (word_text (Number number) ++ text.now))) p.1.now) }
{
    let (value, rest) = number_behind(text)?;
    let answer = row_answer(keyword, number, &[Word::Number(value)])?;
    Some((answer, rest))
}

/// The answer of a keyword, an attempt and another keyword, by the text behind them.
fn more_said<'a>(
    keyword: Keyword,
    tid: Tid,
    next: Keyword,
    text: &'a [u8],
) -> Option<(Answer, &'a [u8])>
    requires { IsTrue (is_word (Attempt tid)) }
    ensures { IfSome result (λ p. Says p.0 (32 ∷ (keyword_text keyword ++ 32 ∷ (word_text (Attempt tid) ++ 32 ∷ (keyword_text next ++ text.now)))) p.1.now) }
{
    match numbers_behind(text) {
        None => {
            let answer = attempt_answer(keyword, tid, &[Word::Plain(next)])?;
            Some((answer, text))
        }
        Some((word, rest)) => {
            let answer = attempt_answer(keyword, tid, &[Word::Plain(next), word])?;
            Some((answer, rest))
        }
    }
}

/// The answer of a keyword and an attempt, by the text behind them.
fn attempt_said(keyword: Keyword, tid: Tid, text: &[u8]) -> Option<(Answer, &[u8])>
    requires { IsTrue (is_word (Attempt tid)) }
    ensures { IfSome result (λ p. Says p.0 (32 ∷ (keyword_text keyword ++ 32 ∷ (word_text (Attempt tid) ++ text.now))) p.1.now) }
{
    match keyword_behind(text) {
        None | Some((Keyword::Sends, _)) => Some((short_answer(keyword, tid)?, text)),
        Some((next, behind)) => more_said(keyword, tid, next, behind),
    }
}

/// What stands behind ` commit`, where a text begins so.
fn behind_commit(text: &[u8]) -> Option<&[u8]>
    ensures { IfSome result (λ rest. text.now ≡ codes " commit" ++ rest.now) }
{
    match text {
        [b' ', b'c', b'o', b'm', b'm', b'i', b't', rest @ ..] => Some(rest),
        _ => None,
    }
}

/// What stands behind ` forgets`, where a text begins so.
fn behind_forgets(text: &[u8]) -> Option<&[u8]>
    ensures { IfSome result (λ rest. text.now ≡ codes " forgets" ++ rest.now) }
{
    match text {
        [b' ', b'f', b'o', b'r', b'g', b'e', b't', b's', rest @ ..] => Some(rest),
        _ => None,
    }
}

/// The decision to commit, by the text behind ` decides`.
fn commit_said(text: &[u8]) -> Option<(Answer, &[u8])>
    ensures { IfSome result (λ p. Says p.0 (codes " decides" ++ text.now) p.1.now) }
{
    let behind = behind_commit(text)?;
    match behind_forgets(behind) {
        None => {
            let answer = Answer::Decides {
                decision: Decision::Commit,
                cause: None,
                forgets: false,
            };
            Some((answer, behind))
        }
        Some(rest) => {
            let answer = Answer::Decides {
                decision: Decision::Commit,
                cause: None,
                forgets: true,
            };
            Some((answer, rest))
        }
    }
}

/// The answer of a keyword alone, or a decision to commit, by the text behind the keyword.
fn plainly_said(keyword: Keyword, text: &[u8]) -> Option<(Answer, &[u8])>
    ensures { IfSome result (λ p. Says p.0 (32 ∷ (keyword_text keyword ++ text.now)) p.1.now) }
{
    match keyword {
        Keyword::Decides => commit_said(text),
        _ => Some((bare_answer(keyword)?, text)),
    }
}

/// The answer of a keyword, by the text behind it.
fn said_behind(keyword: Keyword, text: &[u8]) -> Option<(Answer, &[u8])>
    ensures { IfSome result (λ p. Says p.0 (32 ∷ (keyword_text keyword ++ text.now)) p.1.now) }
{
    match numbers_behind(text) {
        None => plainly_said(keyword, text),
        Some((Word::Attempt(tid), rest)) => attempt_said(keyword, tid, rest),
        Some((Word::Number(number), rest)) => row_said(keyword, number, rest),
        Some(_) => None,
    }
}

/// The answer that a text begins with, and the text behind it. An answer of what is sent alone has no words.
pub fn usual_answer(text: &[u8]) -> Option<(Answer, &[u8])>
    ensures { IfSome result (λ p. Says p.0 text.now p.1.now) }
{
    match keyword_behind(text)? {
        (Keyword::Sends, _) => Some((Answer::Only, text)),
        (keyword, behind) => said_behind(keyword, behind),
    }
}
