//! Answers that are compared.
ghost use Rattle.std.specs.Prelude.{◌≡◌, false, Some, MatchOption};
ghost use Rattle.fed_rules.specs.declared.answers.Answer.TheVariants as Say;
ghost use Rattle.fed_rules.specs.declared.answers.Cause.TheVariants as For;
ghost use Rattle.audit_rules.specs.Faults.{edges_of, names_cycle};
ghost use Rattle.audit_rules.specs.Same as same;
ghost use Rattle.audit_lines.specs.Compared as compared;
ghost use Rattle.audit_lines.specs.Compared.{compared_in};

use crate::tellings::answers_tell;
use fed_rules::{Answer, Cause, Command, Line};
use mdb_base::Edge;
use presumptions::Decision;

/// A refusal by a cycle, as a line says it.
#[derive(Clone, Copy)]
pub(crate) struct Refusal<'a> {
    pub decision: Decision,
    pub edges: &'a [Edge],
    pub forgets: bool,
}

/// The refusal by a cycle that the answer is.
pub(crate) fn refusal_of(answer: &Answer) -> Option<Refusal<'_>>
    ensures { MatchOption result (names_cycle answer.now ≡ false) (λ found. answer.now ≡ Say.Decides found.decision (Some (For.Cycle found.edges.now)) found.forgets) }
{
    match answer {
        Answer::Decides {
            decision,
            cause: Some(Cause::Cycle(edges)),
            forgets,
        } => Some(Refusal {
            decision: *decision,
            edges: edges.as_slice(),
            forgets: *forgets,
        }),
        _ => None,
    }
}

/// Whether the answer is a refusal by a cycle.
pub(crate) fn names_a_cycle(answer: &Answer) -> bool
    ensures { result ≡ names_cycle answer.now }
{
    refusal_of(answer).is_some()
}

/// The edges that a printed line names as those of a cycle.
pub fn edges_named(printed: &Line) -> Option<&[Edge]>
    ensures { MatchOption result (names_cycle printed.now.answer ≡ false) (λ edges. edges.now ≡ edges_of printed.now.answer) }
{
    Some(refusal_of(&printed.answer)?.edges)
}

/// Whether the command has the coordinator take a message.
pub(crate) fn is_take(command: Command) -> bool
    ensures { result ≡ compared.is_take command }
{
    matches!(command, Command::Take { .. })
}

/// Whether two answers are the same.
fn same_answer(printed: &Answer, due: &Answer) -> bool
    ensures { result ≡ same.same_answer printed.now due.now }
{
    answers_tell();
    printed == due
}

/// Whether two answers are the same, but for the edges of a cycle.
#[tactic(auto, using(crate::proofs::Alike::printed_is_whole, crate::proofs::Alike::due_is_whole))]
fn same_but_edges(printed: &Answer, due: &Answer) -> bool
    ensures { result ≡ same.same_answer (same.without_edges printed.now) (same.without_edges due.now) }
{
    let Some(there) = refusal_of(printed) else {
        return same_answer(printed, due);
    };
    let Some(here) = refusal_of(due) else {
        return same_answer(printed, due);
    };
    there.decision == here.decision && there.forgets == here.forgets
}

/// Whether the answers of two lines of one command are the same, but for the edges of a cycle where the coordinator takes a message.
pub(crate) fn are_alike(printed: &Line, due: &Line) -> bool
    ensures { result ≡ same.same_answer (compared_in due.now.command printed.now.answer) (compared_in due.now.command due.now.answer) }
{
    if is_take(due.command) {
        same_but_edges(&printed.answer, &due.answer)
    } else {
        same_answer(&printed.answer, &due.answer)
    }
}
