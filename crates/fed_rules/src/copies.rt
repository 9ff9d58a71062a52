//! Copies of answers and lines. Each is the same value; memory is asked for lists alone.
ghost use Rattle.std.specs.Prelude.{◌≡◌, IfOk, OnErr};
ghost use Rattle.fed_rules.specs.Short.{HasShortCause};

use crate::answers::{Answer, Cause};
use crate::commands::{Line, Stamped};
use std::alloc::AllocError;

/// The copy is the same cause. It can't fail but at a cycle.
impl Clone for Cause {
    ghost use Rattle.std.specs.Prelude.{◌≡◌};
    ghost use Rattle.fed_rules.specs.Short.{IsShortCause};

    ghost is_clone = { λ cause copy. copy ≡ cause };

    ghost is_infallible = { IsShortCause };

    fn clone(&self) -> Result<Cause, AllocError> {
        Ok(match self {
            Cause::Late => Cause::Late,
            Cause::Dies { site, by } => Cause::Dies {
                site: *site,
                by: *by,
            },
            Cause::TooLate { site, by } => Cause::TooLate {
                site: *site,
                by: *by,
            },
            Cause::Unknown { site } => Cause::Unknown { site: *site },
            Cause::No { site } => Cause::No { site: *site },
            Cause::Cycle(edges) => Cause::Cycle(edges.clone()?),
        })
    }
}

/// The copy is the same answer. It can't fail but where a cycle is the cause.
impl Clone for Answer {
    ghost use Rattle.std.specs.Prelude.{◌≡◌};
    ghost use Rattle.fed_rules.specs.Short.{IsShortAnswer};

    ghost is_clone = { λ answer copy. copy ≡ answer };

    ghost is_infallible = { IsShortAnswer };

    fn clone(&self) -> Result<Answer, AllocError> {
        Ok(match self {
            Answer::None => Answer::None,
            Answer::Down => Answer::Down,
            Answer::Idle => Answer::Idle,
            Answer::Spent => Answer::Spent,
            Answer::End => Answer::End,
            Answer::Unfinished => Answer::Unfinished,
            Answer::Unbegun => Answer::Unbegun,
            Answer::Ended => Answer::Ended,
            Answer::Set => Answer::Set,
            Answer::Awake => Answer::Awake,
            Answer::Only => Answer::Only,
            Answer::Defers => Answer::Defers,
            Answer::Ignored => Answer::Ignored,
            Answer::TookWaits => Answer::TookWaits,
            Answer::Voted => Answer::Voted,
            Answer::Acked => Answer::Acked,
            Answer::Forgets => Answer::Forgets,
            Answer::Undecided => Answer::Undecided,
            Answer::Initiates => Answer::Initiates,
            Answer::Large => Answer::Large,
            Answer::Checked => Answer::Checked,
            Answer::Committed(tid) => Answer::Committed(*tid),
            Answer::Running(tid) => Answer::Running(*tid),
            Answer::Begun(tid) => Answer::Begun(*tid),
            Answer::Aborted(tid) => Answer::Aborted(*tid),
            Answer::Unheld(tid) => Answer::Unheld(*tid),
            Answer::Asks(tid) => Answer::Asks(*tid),
            Answer::Dropped(tid) => Answer::Dropped(*tid),
            Answer::Read(key, value) => Answer::Read(*key, *value),
            Answer::Wrote(key, value) => Answer::Wrote(*key, *value),
            Answer::Waits(tid) => Answer::Waits(*tid),
            Answer::Dies(tid) => Answer::Dies(*tid),
            Answer::Late(tid) => Answer::Late(*tid),
            Answer::Invalid(tid, key) => Answer::Invalid(*tid, *key),
            Answer::Sealed(tid, number) => Answer::Sealed(*tid, *number),
            Answer::Stopped(kept) => Answer::Stopped(*kept),
            Answer::Did(tid, reply) => Answer::Did(*tid, *reply),
            Answer::VotesYes(tid, ticket) => Answer::VotesYes(*tid, *ticket),
            Answer::VotesNo(tid, why) => Answer::VotesNo(*tid, *why),
            Answer::Settles(tid, decision) => Answer::Settles(*tid, *decision),
            Answer::Answers(decision) => Answer::Answers(*decision),
            Answer::Presumes(decision) => Answer::Presumes(*decision),
            Answer::Decides {
                decision,
                cause,
                forgets,
            } => Answer::Decides {
                decision: *decision,
                cause: copy_cause(cause)?,
                forgets: *forgets,
            },
            Answer::UpSite { epoch, doubtful } => Answer::UpSite {
                epoch: *epoch,
                doubtful: *doubtful,
            },
            Answer::UpCoord { known } => Answer::UpCoord { known: *known },
        })
    }
}

/// The same cause, where there is one.
fn copy_cause(cause: &Option<Cause>) -> Result<Option<Cause>, AllocError>
    ensures copy { IfOk result (λ copy. copy ≡ cause.now) }
    ensures short { OnErr result (¬ (HasShortCause cause.now)) }
{
    match cause {
        None => Ok(None),
        Some(cause) => Ok(Some(cause.clone()?)),
    }
}

/// The copy is the same line.
impl Clone for Line {
    ghost use Rattle.std.specs.Prelude.{◌≡◌};

    ghost is_clone = { λ line copy. copy ≡ line };

    fn clone(&self) -> Result<Line, AllocError> {
        Ok(Line {
            command: self.command,
            answer: self.answer.clone()?,
            sends: self.sends.clone()?,
        })
    }
}

/// The copy is the same line with the same stamp.
impl Clone for Stamped {
    ghost use Rattle.std.specs.Prelude.{◌≡◌};

    ghost is_clone = { λ stamped copy. copy ≡ stamped };

    fn clone(&self) -> Result<Stamped, AllocError> {
        Ok(Stamped {
            stamp: self.stamp,
            line: self.line.clone()?,
        })
    }
}
