//! Each line of a right story is one that can be printed: its answer and its places are some that its command can
//! have. So it is in a session that goes on from disks. And which refusals can be printed.
#![tactic(auto)]

ghost use Rattle.line_laws.specs.Lines.{ClosingIsHeard, RightLinesFit};
ghost use Rattle.line_laws.specs.Refusals.{ConservativeLinesRefuseNone, ConservativeNextLinesRefuseNone};
ghost use Rattle.line_laws.specs.Resumed.{ResumedLinesFit, ResumedNextLinesFit, ResumingIsHeard, SessionsCloseHeard};

use federation_laws::conservative_tickets_close_no_cycle;

/// In the story of any commands to declared sites each right line fits its command (`line_text`), with whatever
/// cycle a refusal names.
pub fn right_lines_fit()
    ensures { RightLinesFit }
{}

/// So it is in a session that goes on from usable disks, whoever left them: of the next line behind any commands, and
/// of each right line.
pub fn resumed_lines_fit()
    ensures next { ResumedNextLinesFit }
    ensures all { ResumedLinesFit }
{}

/// The commands that close a session speak of declared sites, where those before do.
pub fn closing_is_heard()
    ensures { ClosingIsHeard }
{}

/// So it is in every session, whatever it found on its disks. Those of a session that goes on speak of declared sites,
/// all of them or the first ones.
pub fn sessions_close_heard()
    ensures sessions { SessionsCloseHeard }
    ensures resuming { ResumingIsHeard }
{}

/// Where tickets are taken conservatively, no line that is printed refuses a commit for a cycle, after any commands.
pub fn conservative_lines_refuse_none()
    ensures next { ConservativeNextLinesRefuseNone }
    ensures all { ConservativeLinesRefuseNone }
{
    conservative_tickets_close_no_cycle();
}
