//! Which attempts the coordinator knows, and which of them are undecided, by rising attempt.
ghost use Rattle.std.specs.Prelude.{◌≡◌, false, IfOk};
ghost use Rattle.mdb_base.specs.Words.{those};
ghost use Rattle.fed_rules.specs.Closing.{rising};
ghost use Rattle.fed_rules.specs.CoordPast.{begun_tids, is_known, is_open, standing};
ghost use Rattle.fed_rules.specs.Happenings.{is_down};
ghost use Rattle.coord_core.specs.Stands.{Holds};
ghost use Rattle.coord_core.specs.Steps.{EachPast};

use crate::coord::CoordCore;
use coord_tables::rising_tids;
use global_exec::TakePolicy;
use mdb_base::{Memory, Tid};
use std::alloc::Global;

impl<P: TakePolicy> CoordCore<P> {
    /// The attempts that a coordinator that is up knows, by rising attempt.
    pub fn known_tids(&self, alloc: Global) -> Result<Vec<Tid>, Memory>
        ensures { IfOk result (λ tids. EachPast (Holds P.policy self.now) (λ terms past. is_down past ≡ false
            → tids.items ≡ rising (those (λ tid. is_known (standing terms.protocols past tid)) (begun_tids past)))) }
    {
        let _ = self.tables.known.len();
        rising_tids(alloc, &self.tables.known, false)
    }

    /// The attempts that a coordinator that is up knows without a decision, by rising attempt.
    pub fn undecided_tids(&self, alloc: Global) -> Result<Vec<Tid>, Memory>
        ensures { IfOk result (λ tids. EachPast (Holds P.policy self.now) (λ terms past. is_down past ≡ false
            → tids.items ≡ rising (those (is_open past) (begun_tids past)))) }
    {
        let _ = self.tables.known.len();
        rising_tids(alloc, &self.tables.known, true)
    }
}
