//! What the coordinator answers without a change: how a transaction ended, and inquiries.
ghost use Rattle.std.specs.Prelude.{◌≡◌, ◌==◌, ◌∷◌, [], cond, IfErr, IfOk, IsOkAnd};
ghost use Rattle.fed_rules.specs.Coord.{of_fate, of_inquiry, protocol_of};
ghost use Rattle.coord_tables.specs.Trees.{noted};
ghost use Rattle.coord_core.specs.Stands.{Holds};
ghost use Rattle.coord_core.specs.Steps.{EachPast, Says};

use crate::coord::{CoordCore, says};
use actor_store::{Standing, StepErr};
use fed_rules::{Answer, CoordStep, Sends, Sent, ToSite};
use global_exec::TakePolicy;
use mdb_base::{SiteId, Tid, Tx};
use presumptions::{Decision, Participants, Protocol};
use protocol_table::Said;
use std::alloc::Global;

/// The protocol of a site; presumed nothing where it isn't declared.
fn protocol_of(protocols: &Participants, site: SiteId) -> Protocol
    ensures { result ≡ protocol_of protocols.now site }
{
    for member in protocols.as_slice() {
        if member.site == site {
            return member.protocol;
        }
    }
    Protocol::Nothing
}

/// The decision to one site.
fn told(
    alloc: Global,
    site: SiteId,
    tid: Tid,
    answer: Answer,
    decision: Decision,
) -> Result<CoordStep, StepErr>
    ensures answer { IfOk result (λ step. step.answer ≡ answer) }
    ensures sends { IfOk result (λ step. step.sends ≡ record { site = site; message = ToSite.Decide tid decision } ∷ []) }
    ensures why { IfErr result (λ why. why ≡ StepErr.Memory) }
{
    let Ok(mut sends) = Vec::with_capacity(alloc, 1) else {
        return Err(StepErr::Memory);
    };
    let sent = Sent {
        site,
        message: ToSite::Decide { tid, decision },
    };
    let Ok(()) = sends.push(sent) else {
        return Err(StepErr::Memory);
    };
    Ok(CoordStep {
        answer,
        sends: Sends::of(sends),
    })
}

impl<P: TakePolicy> CoordCore<P> {
    /// How a global transaction ended.
    pub(crate) fn fate(&self, alloc: Global, tx: Tx) -> Result<CoordStep, StepErr>
        requires up { self.now.store.standing ≡ Standing.Up }
        ensures { IsOkAnd result (λ step. EachPast (Holds P.policy self.now) (λ terms past. Says step (of_fate past tx))) }
    {
        match self.tables.committed.last_of(tx) {
            Some(committed) => says(alloc, Answer::Committed(committed)),
            None => match self.tables.stages.last_of(tx) {
                Some(running) => says(alloc, Answer::Running(running)),
                None => self.ended(alloc, tx),
            },
        }
    }

    /// Whether a transaction that is neither committed nor running was begun at all.
    fn ended(&self, alloc: Global, tx: Tx) -> Result<CoordStep, StepErr>
        ensures { IsOkAnd result (λ step. (step.answer ≡ cond (noted self.now.begun.listed tx == 0) Answer.Unbegun Answer.Ended) × (step.sends ≡ [])) }
    {
        if self.begun.attempts_of(tx) == 0 {
            says(alloc, Answer::Unbegun)
        } else {
            says(alloc, Answer::Ended)
        }
    }

    /// An inquiry of a site: nothing while the attempt is undecided, the decision while it is known, and else the site's presumption.
    pub(crate) fn inquire(
        &self,
        alloc: Global,
        site: SiteId,
        tid: Tid,
    ) -> Result<CoordStep, StepErr>
        requires up { self.now.store.standing ≡ Standing.Up }
        ensures says { IfOk result (λ step. EachPast (Holds P.policy self.now) (λ terms past. Says step (of_inquiry terms.protocols past site tid))) }
        ensures why { IfErr result (λ why. why ≡ StepErr.Memory) }
    {
        match self
            .tables
            .known
            .answer(tid, protocol_of(&self.protocols, site))
        {
            Said::Undecided => says(alloc, Answer::Undecided),
            Said::Known(decision) => told(alloc, site, tid, Answer::Answers(decision), decision),
            Said::Presumed(decision) => told(
                alloc,
                site,
                tid,
                Answer::Presumes(decision),
                decision,
            ),
        }
    }
}
