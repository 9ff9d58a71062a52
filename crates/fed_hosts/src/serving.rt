//! What a client asks of a site's host.
ghost use Rattle.std.specs.Prelude.{◌≡◌, ◌≤◌, Bool, false, IfOk, IfErr, IsErrOf, IsFalse, IsSome, IsTrue};
ghost use Rattle.journal_disk.specs.Disk.{Seen};
ghost use Rattle.local_dbms.specs.Stands.{Each_site, Stands};
ghost use Rattle.fed_hosts.specs.Keeps.{Keeps};
ghost use Rattle.fed_hosts.specs.Serving.{HasFailed, IsLastBegin, MayBegin};
ghost use Rattle.fed_hosts.specs.Verbs.{command_of};
ghost use Rattle.fed_hosts.specs.Views.{HasServed, view_of};

use crate::answers::again;
use crate::plans::Plan;
use crate::site_actor::{LineParts, MOST_BEGUN, MOST_LINES, SiteActor};
use crate::verbs::{Verb, command, is_begin, site_ask};
use engine_contract::LocalEngine;
use fed_rules::Answer;
use journal_disk::Disk;
use local_dbms::{LocalDbms, StepErr};
use mdb_base::Tx;

/// Whether what is asked of one of the site's own transactions would begin an attempt, of which a host begins no more.
fn is_spent<E: LocalEngine>(dbms: &LocalDbms<E>, verb: Verb, tx: Tx) -> bool
    ensures spent { IsTrue result → (tells : Bool) (disk : Seen) → Each_site (Stands E.stands tells dbms.now disk)
        (λ home programs past. IsSome (programs tx) → IsLastBegin home past verb tx) }
    ensures left { IsFalse result → (tells : Bool) (disk : Seen) → Each_site (Stands E.stands tells dbms.now disk)
        (λ home programs past. IsSome (programs tx) → verb ≡ Verb.Begin → MayBegin home past tx) }
{
    if !is_begin(verb) {
        return false;
    }
    if dbms.core().begun(tx) < MOST_BEGUN {
        return false;
    }
    dbms.would_begin(tx)
}

impl<E: LocalEngine, D: Disk> SiteActor<E, D> {
    /// What a client asks of a transaction, which makes one line and arms the next stop behind it. Without a line it answers `Spent`
    /// where there are as many lines as a host makes, or where a begin would begin one attempt too many; and `None` for a transaction
    /// that is none of the site's own.
    pub(crate) fn serve<N: Plan>(&mut self, verb: Verb, tx: Tx) -> Result<Answer, StepErr>
        requires told { IsTrue D.tells }
        requires keeps { Keeps E.stands D.tells D.seen N.sites N.rings false self.old }
        ensures keeps { IfOk result (λ _. Keeps E.stands D.tells D.seen N.sites N.rings false self.new) }
        ensures served { IfOk result (HasServed N.sites (view_of self.old false) (view_of self.new false) (command_of verb tx) tx) }
        ensures failed { IfErr result (HasFailed E.stands D.tells D.seen N.sites N.rings self.new) }
        ensures same { IfErr result (λ _. view_of self.new false ≡ view_of self.old false) }
    {
        if self.lines.len() >= MOST_LINES {
            return Ok(Answer::Spent);
        }
        if !self.dbms.is_own(tx) {
            return Ok(Answer::None);
        }
        if is_spent(&self.dbms, verb, tx) {
            return Ok(Answer::Spent);
        }
        if self.reserve().is_err() {
            return Err(StepErr::Memory);
        }
        let ask = site_ask(verb, tx);
        let step = self.dbms.ask(self.alloc, &mut self.disk, ask)?;
        let copy = again(&step.answer);
        self.carry(LineParts {
            command: command(verb, tx),
            answer: step.answer,
            send: None,
            after: 0,
        });
        Ok(copy)
    }
}
