//! The setting of a trip by itself.
ghost use Rattle.std.specs.Prelude.{[], Bool};
ghost use Rattle.journal_disk.specs.Disk.{Seen};
ghost use Rattle.coord_core.specs.Steps.{StepsOn};

use crate::coord::CoordCore;
use fed_rules::{Answer, CoordEvent};
use global_exec::TakePolicy;

impl<P: TakePolicy> CoordCore<P> {
    /// Sets a trip, which stops the coordinator right after so many further disk calls; one of no calls disarms. It is the step of a trip,
    /// which sends nothing, but takes no memory and touches no disk.
    pub fn arm(&mut self, calls: u32, cut: u64) -> Answer
        ensures { (tells : Bool) (seen : Seen) → StepsOn P.policy tells self.old seen self.new seen (CoordEvent.Trip calls cut) (record { answer = result; sends = [] }) }
    {
        self.store.set_trip(calls, cut);
        Answer::Set
    }
}
