//! The first reason for which a printed line isn't the due one.
ghost use Rattle.std.specs.Prelude.{◌≡◌};
ghost use Rattle.audit_rules.specs.Faults.{edges_of, fault_in};
ghost use Rattle.audit_rules.specs.Same as same;
ghost use Rattle.fed_rules.specs.declared.scenario.Scenario.{Scenario as TheScenario};
ghost use Rattle.fed_rules.specs.Right.{IsNext};
ghost use Rattle.fed_rules.specs.Scenarios.{protocols};
ghost use Rattle.fed_rules.specs.Story.{Story, tell};
ghost use Rattle.audit_lines.specs.Compared.{TellsWrong, fault_by};

use crate::answers::{are_alike, is_take, names_a_cycle};
use audit_rules::What;
use fed_rules::{Line, Place};

/// Whether two lists of places are the same.
fn same_places(printed: &[Place], due: &[Place]) -> bool
    ensures { result ≡ same.same_places printed.now due.now }
{
    printed == due
}

/// The first reason for which the printed line isn't the one that is due: its answer, but for the edges of a cycle where the coordinator takes a message;
/// else its places; else, where a refusal by a cycle is due, its edges, if they are wrong.
#[tactic(auto, unfolding(mdb_base::specs::Words::when))]
fn first_fault(printed: &Line, due: &Line, wrong: bool) -> Option<What>
    ensures { result ≡ fault_by printed.now due.now wrong }
{
    if !are_alike(printed, due) {
        return Some(What::Answer);
    }
    if !same_places(printed.sends.as_slice(), due.sends.as_slice()) {
        return Some(What::Places);
    }
    if is_take(due.command) && names_a_cycle(&due.answer) && wrong {
        return Some(What::Cycle);
    }
    None
}

/// The first reason for which a printed line isn't the next one of the story, where a line of its command that is, is at hand: its answer, but for the
/// edges of a cycle where one is due; else its places; else those edges, if they are wrong.
#[tactic(auto, using(crate::proofs::DueLine::fault_is))]
pub fn fault_of(printed: &Line, due: &Line, wrong: bool) -> Option<What>
    ensures { (scenario : TheScenario) (story : Story) → due.now.command ≡ printed.now.command → IsNext scenario story due.now
        → TellsWrong (protocols scenario) story (tell scenario story printed.now.command).happened (edges_of printed.now.answer) wrong
        → result ≡ fault_in scenario story (tell scenario story printed.now.command).happened printed.now }
{
    first_fault(printed, due, wrong)
}
