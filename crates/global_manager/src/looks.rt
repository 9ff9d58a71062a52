//! What is asked of a global transaction manager before a command is carried out, and a trip that is set by itself.
ghost use Rattle.std.specs.Prelude.{◌≡◌, [], Bool, is_some, List, MatchBool};
ghost use Rattle.mdb_base.specs.declared.acts.Step.{Step as TheStep};
ghost use Rattle.mdb_base.specs.declared.names.Tid.{Tid as TheTid};
ghost use Rattle.fed_rules.specs.declared.answers.Answer.TheVariants as Say;
ghost use Rattle.fed_rules.specs.declared.events.CoordEvent.TheVariants as Ev;
ghost use Rattle.fed_rules.specs.Requests.{Submits, unless_begun};
ghost use Rattle.journal_disk.specs.Disk.{Seen};
ghost use Rattle.coord_tables.specs.Terms.{line_of};
ghost use Rattle.global_manager.specs.Stands.{EachManaged, Recalls, Serves, Stands};

use crate::manager::GlobalManager;
use crate::programs::find;
use fed_rules::Answer;
use global_exec::TakePolicy;
use mdb_base::Tx;

impl<P: TakePolicy> GlobalManager<P> {
    /// Whether the transaction is a global one of this federation.
    pub fn is_own(&self, tx: Tx) -> bool
        ensures { EachManaged (Recalls P.policy self.now) (λ terms programs past. result ≡ is_some (programs tx)) }
    {
        find(&self.programs, tx).is_some()
    }

    /// Whether a global transaction is neither undecided nor committed at a coordinator that is up, so that a `go` would begin an attempt,
    /// unless all were begun. Where it isn't so, a `go` begins nothing.
    pub fn would_begin(&self, tx: Tx) -> bool
        ensures { EachManaged (Recalls P.policy self.now) (λ terms programs past. (tid : TheTid) (steps : List TheStep) → tid.tx ≡ tx
            → MatchBool result (unless_begun (line_of terms past (Ev.Go tid steps)).answer ≡ Say.Spent)
            (unless_begun (line_of terms past (Ev.Go tid steps)).answer ≡ (line_of terms past (Ev.Go tid steps)).answer)) }
    {
        matches!(self.spent(tx), Answer::Spent)
    }

    /// Sets a trip, which stops the coordinator right after so many further disk calls; one of no calls disarms. It is the command `trip`,
    /// which sends nothing, but takes no memory and touches no disk.
    pub fn arm(&mut self, calls: u32, cut: u64) -> Answer
        ensures { (tells : Bool) (seen : Seen) → EachManaged (Stands P.policy tells self.old seen)
            (λ terms programs past. Serves (Stands P.policy tells self.new seen) (record { answer = result; sends = [] }) terms programs past (Submits (Ev.Trip calls cut))) }
    {
        self.core.arm(calls, cut)
    }
}
