//! What an operator asks of a global transaction manager: halts, trips, starts and Checkpoints.
ghost use Rattle.std.specs.Prelude.{◌≡◌, IfErr, IfOk, IsTrue};
ghost use Rattle.mdb_base.specs.Counts.{HasCauseOf};
ghost use Rattle.fed_rules.specs.CoordPast.{CoordPast};
ghost use Rattle.fed_rules.specs.OwnPrograms.{OwnPrograms};
ghost use Rattle.fed_rules.specs.Requests.{Submits};
ghost use Rattle.coord_tables.specs.Terms.{Terms};
ghost use Rattle.global_manager.specs.Asks.{CanAsk, FailsOn, ServesOn, coord_request, is_operation};
ghost use Rattle.global_manager.specs.Stands.{CanSubmit, SomeManaged, Stands};

use crate::asks::CoordAsk;
use crate::manager::GlobalManager;
use coord_core::StepErr;
use fed_rules::{CoordEvent, CoordStep};
use global_exec::TakePolicy;
use journal_disk::Disk;
use std::alloc::Global;

/// What an operator asks comes to this event.
fn operation(ask: &CoordAsk) -> CoordEvent
    requires { IsTrue (is_operation ask.now) }
    ensures comes { (terms : Terms) (programs : OwnPrograms) (past : CoordPast) → coord_request ask.now terms programs past ≡ Submits result }
    ensures may { (terms : Terms) (programs : OwnPrograms) (past : CoordPast) → CanSubmit result terms programs past }
{
    match ask {
        CoordAsk::Halt { cut } => CoordEvent::Halt { cut: *cut },
        CoordAsk::Trip { calls, cut } => CoordEvent::Trip {
            calls: *calls,
            cut: *cut,
        },
        CoordAsk::Back => CoordEvent::Back,
        CoordAsk::Check => CoordEvent::Check,
        _ => unreachable!(),
    }
}

impl<P: TakePolicy> GlobalManager<P> {
    /// Answers what an operator asks, which goes to the core as it is.
    pub(crate) fn operate<D: Disk>(
        &mut self,
        alloc: Global,
        disk: &mut D,
        ask: &CoordAsk,
    ) -> Result<CoordStep, StepErr>
        requires told { IsTrue D.tells }
        requires operation { IsTrue (is_operation ask.now) }
        requires stood { SomeManaged (Stands P.policy D.tells self.old (D.seen disk.old)) (CanAsk ask.now) }
        ensures served { IfOk result (ServesOn (Stands P.policy D.tells self.old (D.seen disk.old)) (Stands P.policy D.tells self.new (D.seen disk.new)) ask.now) }
        ensures failed { IfErr result (FailsOn (Stands P.policy D.tells self.old (D.seen disk.old)) (Stands P.policy D.tells self.new (D.seen disk.new)) ask.now) }
        ensures cause { HasCauseOf StepErr.Disk (D.seen disk.old).faults (D.seen disk.new).faults result }
    {
        let event = operation(ask);
        self.core.step(alloc, disk, event)
    }
}
