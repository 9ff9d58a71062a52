//! What is asked of a local database system before a command is carried out, and a trip that is set by itself.
ghost use Rattle.std.specs.Prelude.{◌≡◌, ℕ, Bool, IsSome, is_some, MatchBool};
ghost use Rattle.fed_rules.specs.declared.answers.Answer.TheVariants as Say;
ghost use Rattle.fed_rules.specs.declared.events.SiteEvent.TheVariants as Ev;
ghost use Rattle.fed_rules.specs.Requests.{Submits, attempt, unless_begun};
ghost use Rattle.fed_rules.specs.Site.{site_line};
ghost use Rattle.journal_disk.specs.Disk.{Seen};
ghost use Rattle.local_dbms.specs.Stands.{Each_site, Recalls, Serves, Stands};

use crate::dbms::LocalDbms;
use crate::programs::find;
use engine_contract::LocalEngine;
use fed_rules::Answer;
use mdb_base::Tx;

impl<E: LocalEngine> LocalDbms<E> {
    /// Whether the transaction is one of the site's own.
    pub fn is_own(&self, tx: Tx) -> bool
        ensures { Each_site (Recalls E.stands self.now) (λ home programs past. result ≡ is_some (programs tx)) }
    {
        find(&self.programs, tx).is_some()
    }

    /// Whether one of the site's own transactions is neither running nor committed at a site that is up, so that a begin would begin an
    /// attempt, unless all were begun. Where it isn't so, a begin begins nothing.
    pub fn would_begin(&self, tx: Tx) -> bool
        ensures { Each_site (Recalls E.stands self.now) (λ home programs past. IsSome (programs tx) → (n : ℕ)
            → MatchBool result (unless_begun (site_line home past (Ev.Begin (attempt tx n))).answer ≡ Say.Spent)
            (unless_begun (site_line home past (Ev.Begin (attempt tx n))).answer ≡ (site_line home past (Ev.Begin (attempt tx n))).answer)) }
    {
        matches!(self.spent(tx), Answer::Spent)
    }

    /// Sets a trip, which stops the site right after so many further disk calls; one of no calls disarms. It is the command `trip`, but
    /// takes no memory and touches no disk.
    pub fn arm(&mut self, calls: u32, cut: u64) -> Answer
        ensures { (tells : Bool) (disk : Seen) → Each_site (Stands E.stands tells self.old disk)
            (λ home programs past. Serves (Stands E.stands tells self.new disk) result home programs past (Submits (Ev.Trip calls cut))) }
    {
        self.core.arm(calls, cut)
    }
}
