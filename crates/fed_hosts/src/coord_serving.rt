//! What a client asks of the coordinator's host.
ghost use Rattle.std.specs.Prelude.{◌≡◌, false, IfOk, IfErr, IsFalse, IsTrue};
ghost use Rattle.global_manager.specs.Stands.{EachManaged, Recalls};
ghost use Rattle.fed_hosts.specs.CoordKeeps.{CoordKeeps};
ghost use Rattle.fed_hosts.specs.CoordServing.{HasCoordFailed, IsLastAttempt, IsLastGo, MayCall, MayGo};
ghost use Rattle.fed_hosts.specs.CoordViews.{HasCoordServed, IsKnown, IsUnknown, coord_view_of};

use crate::answers::again;
use crate::coord_actor::{CoordActor, CoordLineParts};
use crate::coord_asks::{CoordCall, ask_of, command};
use crate::plans::Plan;
use crate::site_actor::{MOST_BEGUN, MOST_LINES};
use fed_rules::Answer;
use global_exec::TakePolicy;
use global_manager::{GlobalManager, StepErr};
use journal_disk::Disk;
use mdb_base::Tx;

/// Whether the call is about a transaction that is no global one. Attempts are named freely.
fn is_unknown<P: TakePolicy>(manager: &GlobalManager<P>, call: CoordCall) -> bool
    ensures unknown { IsTrue result → EachManaged (Recalls P.policy manager.now) (λ terms programs past. IsUnknown programs call) }
    ensures known { IsFalse result → EachManaged (Recalls P.policy manager.now) (λ terms programs past. IsKnown programs call) }
{
    match call {
        CoordCall::Go(tx) => !manager.is_own(tx),
        CoordCall::Fate(tx) => !manager.is_own(tx),
        CoordCall::Again(_) => false,
        CoordCall::Late(_) => false,
    }
}

/// Whether a `go` would begin an attempt, of which a host begins no more.
fn is_spent<P: TakePolicy>(manager: &GlobalManager<P>, tx: Tx) -> bool
    ensures spent { IsTrue result → EachManaged (Recalls P.policy manager.now) (λ terms programs past. IsLastAttempt terms past tx) }
    ensures left { IsFalse result → EachManaged (Recalls P.policy manager.now) (λ terms programs past. MayGo terms past tx) }
{
    if u32::from(manager.core().begun(tx)) < MOST_BEGUN {
        return false;
    }
    manager.would_begin(tx)
}

/// Whether the call would begin an attempt, of which a host begins no more.
fn is_last<P: TakePolicy>(manager: &GlobalManager<P>, call: CoordCall) -> bool
    ensures spent { IsTrue result → EachManaged (Recalls P.policy manager.now) (λ terms programs past. IsLastGo terms past call) }
    ensures left { IsFalse result → EachManaged (Recalls P.policy manager.now) (λ terms programs past. MayCall terms past call) }
{
    match call {
        CoordCall::Go(tx) => is_spent(manager, tx),
        CoordCall::Fate(_) => false,
        CoordCall::Again(_) => false,
        CoordCall::Late(_) => false,
    }
}

impl<P: TakePolicy, D: Disk> CoordActor<P, D> {
    /// What a client asks of a transaction or an attempt, which makes one line and arms the next stop behind it. Without a line it answers
    /// `Spent` where there are as many lines as a host makes, or where a `go` would begin one attempt too many; and `None` for a
    /// transaction that is no global one.
    pub(crate) fn serve<N: Plan>(&mut self, call: CoordCall) -> Result<Answer, StepErr>
        requires told { IsTrue D.tells }
        requires keeps { CoordKeeps P.policy D.tells D.seen N.coordinator N.rings false self.old }
        ensures keeps { IfOk result (λ _. CoordKeeps P.policy D.tells D.seen N.coordinator N.rings false self.new) }
        ensures served { IfOk result (HasCoordServed N.coordinator (coord_view_of self.old false) (coord_view_of self.new false) call) }
        ensures failed { IfErr result (HasCoordFailed P.policy D.tells D.seen N.coordinator N.rings self.new) }
        ensures same { IfErr result (λ _. coord_view_of self.new false ≡ coord_view_of self.old false) }
    {
        if self.lines.len() >= MOST_LINES {
            return Ok(Answer::Spent);
        }
        if is_unknown(&self.manager, call) {
            return Ok(Answer::None);
        }
        if is_last(&self.manager, call) {
            return Ok(Answer::Spent);
        }
        if self.reserve().is_err() {
            return Err(StepErr::Memory);
        }
        let step = self.manager.ask(self.alloc, &mut self.disk, ask_of(call))?;
        let copy = again(&step.answer);
        self.carry(CoordLineParts {
            command: command(call),
            answer: step.answer,
            sends: step.sends,
            after: 0,
        });
        Ok(copy)
    }
}
