//! An answer as bytes, each word behind a space. After want of memory the bytes still begin with what they were.
ghost use Rattle.std.specs.Prelude.{◌≡◌, [], ◌∷◌, ◌++◌, IsTrue, OnOk, OnErr, map};
ghost use Rattle.mdb_base.specs.Texts.{BeginsWith};
ghost use Rattle.fed_rules.specs.declared.answers.Answer.TheVariants.{Decides};
ghost use Rattle.line_text.specs.Spelling as spelling;
ghost use Rattle.line_text.specs.Spelling.{spaced};
ghost use Rattle.line_text.specs.declared.word.Keyword.TheVariants as Key;
ghost use Rattle.line_text.specs.declared.word.Word.TheVariants.{Plain, Joined};

use crate::pieces::{put_attempt, put_attempt_count, put_count, put_counts};
use fed_rules::{Answer, Cause};
use mdb_base::{Edge, Memory, Reply, Why, put_text};
use presumptions::Decision;

/// Appends the words of a refusal.
fn put_refusal(out: &mut Vec<u8>, why: Why) -> Result<(), Memory>
    ensures ok { OnOk result (out.new.items ≡ out.old.items ++ spaced (spelling.refusal_words why)) }
    ensures err { OnErr result (BeginsWith out.old.items out.new.items) }
{
    match why {
        Why::Die { by } => put_attempt(out, " dies ", by),
        Why::Late { by } => put_attempt(out, " late ", by),
        Why::Invalid { by, key } => {
            put_attempt_count(out, " invalid ", by, " ", u64::from(key.0))
        }
        Why::TicketMoved { by } => put_attempt(out, " moved ", by),
    }
}

/// Appends the words of a reply.
fn put_reply(out: &mut Vec<u8>, reply: Reply) -> Result<(), Memory>
    ensures ok { OnOk result (out.new.items ≡ out.old.items ++ spaced (spelling.reply_words reply)) }
    ensures err { OnErr result (BeginsWith out.old.items out.new.items) }
{
    match reply {
        Reply::Done => put_text(out, " done"),
        Reply::Value(value) => put_count(out, " value ", value),
        Reply::Ticket(ticket) => put_count(out, " ticket ", ticket),
        Reply::Wait { by } => put_attempt(out, " waits ", by),
        Reply::Refused(why) => put_refusal(out, why),
        Reply::Unknown => put_text(out, " unknown"),
    }
}

/// Appends the reason of a no vote.
fn put_no(out: &mut Vec<u8>, why: Option<Why>) -> Result<(), Memory>
    ensures ok { OnOk result (out.new.items ≡ out.old.items ++ spaced (Plain Key.No ∷ spelling.no_words why)) }
    ensures err { OnErr result (BeginsWith out.old.items out.new.items) }
{
    put_text(out, " no")?;
    match why {
        Some(why) => put_refusal(out, why),
        None => put_text(out, " unknown"),
    }
}

/// Appends the word of a decision.
fn put_decision(out: &mut Vec<u8>, decision: Decision) -> Result<(), Memory>
    ensures ok { OnOk result (out.new.items ≡ out.old.items ++ spaced (spelling.decision_word decision ∷ [])) }
    ensures err { OnErr result (BeginsWith out.old.items out.new.items) }
{
    match decision {
        Decision::Commit => put_text(out, " commit"),
        Decision::Abort => put_text(out, " abort"),
    }
}

/// Appends an edge.
fn put_edge(out: &mut Vec<u8>, edge: Edge) -> Result<(), Memory>
    ensures ok { OnOk result (out.new.items ≡ out.old.items ++ spaced (Joined edge ∷ [])) }
    ensures err { OnErr result (BeginsWith out.old.items out.new.items) }
{
    put_attempt(out, " ", edge.from)?;
    put_attempt_count(out, ">", edge.to, "@", u64::from(edge.site.0))
}

/// Appends the edges of a cycle.
fn put_edges(out: &mut Vec<u8>, edges: &[Edge]) -> Result<(), Memory>
    ensures ok { OnOk result (out.new.items ≡ out.old.items ++ spaced (map Joined edges.now)) }
    ensures err { OnErr result (BeginsWith out.old.items out.new.items) }
{
    for edge in edges {
        put_edge(out, *edge)?;
    }
    Ok(())
}

/// Appends the words of a cause.
fn put_cause(out: &mut Vec<u8>, cause: &Cause) -> Result<(), Memory>
    ensures ok { OnOk result (out.new.items ≡ out.old.items ++ spaced (spelling.cause_words cause.now)) }
    ensures err { OnErr result (BeginsWith out.old.items out.new.items) }
{
    match cause {
        Cause::Late => put_text(out, " late"),
        Cause::Dies { site, by } => {
            put_count(out, " site ", u64::from(site.0))?;
            put_attempt(out, " dies ", *by)
        }
        Cause::TooLate { site, by } => {
            put_count(out, " site ", u64::from(site.0))?;
            put_attempt(out, " late ", *by)
        }
        Cause::Unknown { site } => {
            put_count(out, " site ", u64::from(site.0))?;
            put_text(out, " unknown")
        }
        Cause::No { site } => {
            put_count(out, " site ", u64::from(site.0))?;
            put_text(out, " no")
        }
        Cause::Cycle(edges) => {
            put_text(out, " cycle")?;
            put_edges(out, edges.as_slice())
        }
    }
}

/// Appends the words of a cause, where there is one.
fn put_maybe_cause(out: &mut Vec<u8>, cause: &Option<Cause>) -> Result<(), Memory>
    ensures ok { OnOk result (out.new.items ≡ out.old.items ++ spaced (spelling.maybe_cause_words cause.now)) }
    ensures err { OnErr result (BeginsWith out.old.items out.new.items) }
{
    match cause {
        Some(cause) => put_cause(out, cause),
        None => Ok(()),
    }
}

/// Appends the word that says that the attempt is forgotten, where it is.
fn put_forgets(out: &mut Vec<u8>, forgets: bool) -> Result<(), Memory>
    ensures ok { OnOk result (out.new.items ≡ out.old.items ++ spaced (spelling.forgets_words forgets)) }
    ensures err { OnErr result (BeginsWith out.old.items out.new.items) }
{
    if forgets {
        return put_text(out, " forgets");
    }
    Ok(())
}

/// Appends what stands behind a decision.
#[tactic(auto, using(crate::proofs::Written::spaced_both))]
fn put_ending(out: &mut Vec<u8>, cause: &Option<Cause>, forgets: bool) -> Result<(), Memory>
    ensures ok { OnOk result (out.new.items ≡ out.old.items ++ spaced (spelling.maybe_cause_words cause.now ++ spelling.forgets_words forgets)) }
    ensures err { OnErr result (BeginsWith out.old.items out.new.items) }
{
    put_maybe_cause(out, cause)?;
    put_forgets(out, forgets)
}

/// Appends `decides` and the decision.
fn put_decides(out: &mut Vec<u8>, decision: Decision) -> Result<(), Memory>
    ensures ok { OnOk result (out.new.items ≡ out.old.items ++ spaced (Plain Key.Decides ∷ spelling.decision_word decision ∷ [])) }
    ensures err { OnErr result (BeginsWith out.old.items out.new.items) }
{
    put_text(out, " decides")?;
    put_decision(out, decision)
}

/// Appends a decision with its cause, and whether the attempt is forgotten.
fn put_decided(
    out: &mut Vec<u8>,
    decision: Decision,
    cause: &Option<Cause>,
    forgets: bool,
) -> Result<(), Memory>
    ensures ok { OnOk result (out.new.items ≡ out.old.items ++ spaced (spelling.answer_words (Decides decision cause.now forgets))) }
    ensures err { OnErr result (BeginsWith out.old.items out.new.items) }
{
    put_decides(out, decision)?;
    put_ending(out, cause, forgets)
}

/// Appends the word of an answer without fields.
fn put_bare(out: &mut Vec<u8>, answer: &Answer) -> Result<(), Memory>
    requires { IsTrue (spelling.is_bare answer.now) }
    ensures ok { OnOk result (out.new.items ≡ out.old.items ++ spaced (spelling.answer_words answer.now)) }
    ensures err { OnErr result (BeginsWith out.old.items out.new.items) }
{
    match answer {
        Answer::None => put_text(out, " none"),
        Answer::Down => put_text(out, " down"),
        Answer::Idle => put_text(out, " idle"),
        Answer::Spent => put_text(out, " spent"),
        Answer::End => put_text(out, " end"),
        Answer::Unfinished => put_text(out, " unfinished"),
        Answer::Unbegun => put_text(out, " unbegun"),
        Answer::Ended => put_text(out, " aborted"),
        Answer::Set => put_text(out, " set"),
        Answer::Awake => put_text(out, " awake"),
        Answer::Defers => put_text(out, " defers"),
        Answer::Ignored => put_text(out, " ignored"),
        Answer::TookWaits => put_text(out, " waits"),
        Answer::Voted => put_text(out, " voted"),
        Answer::Acked => put_text(out, " acked"),
        Answer::Forgets => put_text(out, " forgets"),
        Answer::Undecided => put_text(out, " undecided"),
        Answer::Initiates => put_text(out, " initiates"),
        Answer::Large => put_text(out, " large"),
        Answer::Checked => put_text(out, " checked"),
        _ => Ok(()),
    }
}

/// Appends the words of an answer.
pub fn put_answer(out: &mut Vec<u8>, answer: &Answer) -> Result<(), Memory>
    ensures ok { OnOk result (out.new.items ≡ out.old.items ++ spaced (spelling.answer_words answer.now)) }
    ensures err { OnErr result (BeginsWith out.old.items out.new.items) }
{
    match answer {
        Answer::Committed(tid) => put_attempt(out, " committed ", *tid),
        Answer::Running(tid) => put_attempt(out, " running ", *tid),
        Answer::Begun(tid) => put_attempt(out, " begun ", *tid),
        Answer::Aborted(tid) => put_attempt(out, " aborted ", *tid),
        Answer::Unheld(tid) => put_attempt(out, " unheld ", *tid),
        Answer::Asks(tid) => put_attempt(out, " asks ", *tid),
        Answer::Dropped(tid) => put_attempt(out, " dropped ", *tid),
        Answer::Waits(by) => put_attempt(out, " waits ", *by),
        Answer::Dies(by) => put_attempt(out, " dies ", *by),
        Answer::Late(by) => put_attempt(out, " late ", *by),
        Answer::Read(key, value) => put_counts(out, " read ", u64::from(key.0), *value),
        Answer::Wrote(key, value) => put_counts(out, " wrote ", u64::from(key.0), *value),
        Answer::Invalid(by, key) => {
            put_attempt_count(out, " invalid ", *by, " ", u64::from(key.0))
        }
        Answer::Sealed(tid, number) => {
            put_attempt_count(out, " committed ", *tid, " number ", *number)
        }
        Answer::VotesYes(tid, ticket) => {
            put_attempt_count(out, " votes ", *tid, " yes ", *ticket)
        }
        Answer::Stopped(kept) => put_count(out, " stopped kept ", *kept),
        Answer::UpCoord { known } => put_count(out, " up known ", u64::from(*known)),
        Answer::UpSite { epoch, doubtful } => {
            put_count(out, " up epoch ", u64::from(*epoch))?;
            put_count(out, " doubtful ", u64::from(*doubtful))
        }
        Answer::Did(tid, reply) => {
            put_attempt(out, " did ", *tid)?;
            put_reply(out, *reply)
        }
        Answer::VotesNo(tid, why) => {
            put_attempt(out, " votes ", *tid)?;
            put_no(out, *why)
        }
        Answer::Settles(tid, decision) => {
            put_attempt(out, " settles ", *tid)?;
            put_decision(out, *decision)
        }
        Answer::Answers(decision) => {
            put_text(out, " answers")?;
            put_decision(out, *decision)
        }
        Answer::Presumes(decision) => {
            put_text(out, " presumes")?;
            put_decision(out, *decision)
        }
        Answer::Decides {
            decision,
            cause,
            forgets,
        } => put_decided(out, *decision, cause, *forgets),
        _ => put_bare(out, answer),
    }
}
