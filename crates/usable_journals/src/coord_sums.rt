//! A Checkpoint behind other records is the sum of them.
ghost use Rattle.std.specs.Prelude.{◌≡◌, ◌↔◌, true, false, cond, None, Some, is_some, IfOk, OnOk, IsTrue, List, [], ◌∷◌, ◌++◌, map, reverse};
ghost use Rattle.std.specs.BTreeMap.{IsOrdered, get};
ghost use Rattle.mdb_base.specs.declared.names.SiteTicket.{SiteTicket as TheTicket};
ghost use Rattle.mdb_base.specs.declared.names.Tid.{Tid as TheTid};
ghost use Rattle.mdb_base.specs.Names.{same_tid, tid_cmp};
ghost use Rattle.mdb_base.specs.Words.{those};
ghost use Rattle.presumptions.specs.declared.Participant.{Participant as TheMember};
ghost use Rattle.std.specs.Cmp.Lexicographic.{pointwise};
ghost use Rattle.fed_rules.specs.declared.records.CoordRecord.TheVariants as Rec;
ghost use Rattle.fed_rules.specs.declared.records.CoordRecord.{CoordRecord as TheRecord};
ghost use Rattle.fed_rules.specs.CoordSums.{coord_sum};
ghost use Rattle.fed_rules.specs.Reopened.{commit_read, coord_sum_read, end_read, initiation_read};
ghost use Rattle.fed_rules.specs.Usable.{CoordSumsFit, coord_read};
ghost use Rattle.usable_journals.specs.CoordTests.{in_order, same_member, same_ticket};
ghost use Rattle.usable_journals.specs.Reads.{Fits, Reads, Says, begun, committed_pair, ended, ends_of, forgotten, open_pair};
ghost use Rattle.usable_journals.specs.Recorded.{end_unless, not_in};
ghost use Rattle.std.specs.BTreeSet.{contains};

use crate::awaited::ends_at_once;
use crate::coord_order::open_tids;
use crate::copies::{copy_participants, copy_tickets, ticketed};
use fed_rules::{CommittedAttempt, CoordRecord, CoordSum, OpenAttempt};
use mdb_base::{Memory, SiteTicket, Tickets, Tid};
use presumptions::{Participant, Participants};
use std::alloc::Global;
use std::collections::{BTreeMap, BTreeSet};

/// What the records said so far.
#[derive(Drop)]
pub(crate) struct Reading {
    /// The open attempts with their participants.
    attempts: BTreeMap<Tid, Participants>,
    /// The committed ones with their tickets.
    committed: BTreeMap<Tid, Tickets>,
}

impl Reading {
    fn new(alloc: Global) -> Reading
        ensures { (protocols : List TheMember) → Says protocols result [] }
    {
        Reading {
            attempts: BTreeMap::new(alloc),
            committed: BTreeMap::new(alloc),
        }
    }

    /// The attempt is open with these participants, unless it is open already.
    fn begin(&mut self, tid: Tid, participants: Participants) -> Result<(), Memory>
        ensures attempts { OnOk result ((q : TheTid) → get tid_cmp self.new.attempts q ≡ begun tid participants (get tid_cmp self.old.attempts) q) }
        ensures committed { self.new.committed ≡ self.old.committed }
    {
        if self.attempts.contains_key(&tid) {
            return Ok(());
        }
        self.attempts.insert(tid, participants)?;
        Ok(())
    }

    /// Whether the attempt is open and a commit of it is forgotten at once.
    fn is_forgotten(&self, tid: Tid) -> bool
        ensures { result ≡ ends_of (get tid_cmp self.now.attempts tid) }
    {
        match self.attempts.get(&tid) {
            Some(participants) => ends_at_once(participants),
            None => false,
        }
    }

    /// The attempt is committed: it is no longer open, if its commit is forgotten at once.
    fn forget(&mut self, tid: Tid)
        ensures attempts { (q : TheTid) → get tid_cmp self.new.attempts q ≡ forgotten tid (get tid_cmp self.old.attempts) q }
        ensures committed { self.new.committed ≡ self.old.committed }
    {
        if self.is_forgotten(tid) {
            self.attempts.remove(&tid);
        }
    }

    /// The attempt is committed with these tickets: it is open, unless its commit is forgotten at once.
    fn commit(
        &mut self,
        alloc: Global,
        protocols: &Participants,
        tid: Tid,
        tickets: &Tickets,
    ) -> Result<(), Memory>
        ensures { OnOk result (Reads protocols.now self.old self.new (Rec.Commit tid tickets.now ∷ [])) }
    {
        self.begin(tid, ticketed(alloc, protocols, tickets)?)?;
        self.forget(tid);
        let kept = copy_tickets(alloc, tickets)?;
        self.committed.insert(tid, kept)?;
        Ok(())
    }

    /// The attempt is no longer open.
    fn end(&mut self, tid: Tid)
        ensures { (protocols : List TheMember) → Reads protocols self.old self.new (Rec.End tid ∷ []) }
    {
        self.attempts.remove(&tid);
    }

    /// The next record.
    fn take(
        &mut self,
        alloc: Global,
        protocols: &Participants,
        entry: &CoordRecord,
    ) -> Result<(), Memory>
        ensures { OnOk result (Reads protocols.now self.old self.new (entry.now ∷ [])) }
    {
        match entry {
            CoordRecord::Initiation { tid, participants } => {
                let copy = copy_participants(alloc, participants)?;
                self.begin(*tid, copy)?;
                Ok(())
            }
            CoordRecord::Commit { tid, tickets } => self.commit(alloc, protocols, *tid, tickets),
            CoordRecord::Abort { tid, participants } => {
                let copy = copy_participants(alloc, participants)?;
                self.begin(*tid, copy)?;
                Ok(())
            }
            CoordRecord::End { tid } => {
                self.end(*tid);
                Ok(())
            }
            CoordRecord::Checkpoint(_) => Ok(()),
        }
    }

    /// The open attempts of a first Checkpoint, the last one first, as Initiations.
    fn begin_all(&mut self, alloc: Global, attempts: &[OpenAttempt]) -> Result<(), Memory>
        ensures { OnOk result ((protocols : List TheMember) → Reads protocols self.old self.new (map initiation_read attempts.now)) }
    {
        let mut left = attempts.len();
        while left > 0 {
            left -= 1;
            let attempt = &attempts[left];
            let copy = copy_participants(alloc, &attempt.participants)?;
            self.begin(attempt.tid, copy)?;
        }
        Ok(())
    }

    /// Its committed attempts, the last one first, as Commits.
    fn commit_all(
        &mut self,
        alloc: Global,
        protocols: &Participants,
        committed: &[CommittedAttempt],
    ) -> Result<(), Memory>
        ensures { OnOk result (Reads protocols.now self.old self.new (map commit_read committed.now)) }
    {
        let mut left = committed.len();
        while left > 0 {
            left -= 1;
            let attempt = &committed[left];
            self.commit(alloc, protocols, attempt.tid, &attempt.tickets)?;
        }
        Ok(())
    }

    /// The attempt's End, unless it is open.
    fn end_unless(&mut self, tids: &BTreeSet<Tid>, tid: Tid)
        ensures { (protocols : List TheMember) → Reads protocols self.old self.new (end_unless (contains tid_cmp tids.now tid) tid) }
    {
        if !tids.contains(&tid) {
            self.end(tid);
        }
    }

    /// Those of them that aren't open, the last one first, as Ends.
    fn end_all(&mut self, tids: &BTreeSet<Tid>, committed: &[CommittedAttempt])
        ensures { (protocols : List TheMember) → Reads protocols self.old self.new (map end_read (those (not_in tids.now) committed.now)) }
    {
        let mut left = committed.len();
        while left > 0 {
            left -= 1;
            self.end_unless(tids, committed[left].tid);
        }
    }

    /// A first Checkpoint, as the records that it is read as.
    fn take_sum(
        &mut self,
        alloc: Global,
        protocols: &Participants,
        sum: &CoordSum,
    ) -> Result<(), Memory>
        ensures { OnOk result (Reads protocols.now self.old self.new (coord_sum_read sum.now)) }
    {
        let attempts = sum.open_attempts.as_slice();
        let committed = sum.committed.as_slice();
        let tids = open_tids(alloc, attempts)?;
        self.begin_all(alloc, attempts)?;
        self.commit_all(alloc, protocols, committed)?;
        self.end_all(&tids, committed);
        Ok(())
    }

    /// The first record, or what it is read as.
    fn take_first(
        &mut self,
        alloc: Global,
        protocols: &Participants,
        first: &CoordRecord,
    ) -> Result<(), Memory>
        ensures { OnOk result (Reads protocols.now self.old self.new (coord_read (first.now ∷ []))) }
    {
        match first {
            CoordRecord::Checkpoint(sum) => self.take_sum(alloc, protocols, sum),
            _ => self.take(alloc, protocols, first),
        }
    }

    /// Whether this is what the records said.
    fn says(&self, sum: &CoordSum) -> bool
        ensures { (protocols : List TheMember) (records : List TheRecord) → Says protocols self.now records → in_order records ≡ true → IsTrue result ↔ (sum.now ≡ coord_sum protocols records) }
    {
        if !are_open(&self.attempts, sum.open_attempts.as_slice()) {
            return false;
        }
        are_committed(&self.committed, sum.committed.as_slice())
    }

    /// The next record: whether it is no Checkpoint, or the sum of those before it.
    fn fits(&self, entry: &CoordRecord) -> bool
        ensures { (protocols : List TheMember) (records : List TheRecord) → Says protocols self.now records → in_order records ≡ true → IsTrue result ↔ Fits protocols entry.now records }
    {
        match entry {
            CoordRecord::Checkpoint(sum) => self.says(sum),
            _ => true,
        }
    }

    /// The next records, the oldest first: whether each Checkpoint among them is the sum of those before it.
    fn take_all(
        &mut self,
        alloc: Global,
        protocols: &Participants,
        entries: &[CoordRecord],
    ) -> Result<bool, Memory>
        ensures { IfOk result (λ fits. (first : TheRecord) → Says protocols.now self.old (coord_read (first ∷ [])) → in_order (coord_read (reverse entries.now ++ first ∷ [])) ≡ true
            → IsTrue fits ↔ CoordSumsFit protocols.now (reverse entries.now ++ first ∷ [])) }
    {
        for entry in entries {
            if !self.fits(entry) {
                return Ok(false);
            }
            self.take(alloc, protocols, entry)?;
        }
        Ok(true)
    }
}

/// Whether both lists are the same.
fn members_match(one: &[Participant], other: &[Participant]) -> bool
    ensures { result ≡ pointwise same_member one.now other.now }
{
    let mut rest = other;
    for member in one {
        let Some((next, behind)) = rest.split_first() else {
            return false;
        };
        if *member != *next {
            return false;
        }
        rest = behind;
    }
    rest.is_empty()
}

/// Whether both lists are the same.
fn tickets_match(one: &[SiteTicket], other: &[SiteTicket]) -> bool
    ensures { result ≡ pointwise same_ticket one.now other.now }
{
    let mut rest = other;
    for ticket in one {
        let Some((next, behind)) = rest.split_first() else {
            return false;
        };
        if *ticket != *next {
            return false;
        }
        rest = behind;
    }
    rest.is_empty()
}

/// Whether both are the same.
fn same_participants(one: &Participants, other: &Participants) -> bool
    ensures { IsTrue result ↔ (one.now ≡ other.now) }
{
    members_match(one.as_slice(), other.as_slice())
}

/// Whether both are the same.
fn same_tickets(one: &Tickets, other: &Tickets) -> bool
    ensures { IsTrue result ↔ (one.now ≡ other.now) }
{
    tickets_match(one.as_slice(), other.as_slice())
}

/// Whether these are the open attempts with their participants, by rising attempt.
fn are_open(kept: &BTreeMap<Tid, Participants>, attempts: &[OpenAttempt]) -> bool
    ensures same { IsTrue result ↔ (map open_pair attempts.now ≡ kept.now.entries) }
    ensures ordered { IsOrdered tid_cmp kept.now }
{
    let _count = kept.len();
    let mut rest = attempts;
    for (tid, participants) in kept {
        let Some((attempt, behind)) = rest.split_first() else {
            return false;
        };
        if attempt.tid != *tid {
            return false;
        }
        if !same_participants(&attempt.participants, participants) {
            return false;
        }
        rest = behind;
    }
    rest.is_empty()
}

/// Whether these are the committed attempts with their tickets, by rising attempt.
fn are_committed(committed: &BTreeMap<Tid, Tickets>, attempts: &[CommittedAttempt]) -> bool
    ensures same { IsTrue result ↔ (map committed_pair attempts.now ≡ committed.now.entries) }
    ensures ordered { IsOrdered tid_cmp committed.now }
{
    let _count = committed.len();
    let mut rest = attempts;
    for (tid, tickets) in committed {
        let Some((attempt, behind)) = rest.split_first() else {
            return false;
        };
        if attempt.tid != *tid {
            return false;
        }
        if !same_tickets(&attempt.tickets, tickets) {
            return false;
        }
        rest = behind;
    }
    rest.is_empty()
}

/// Whether each Checkpoint behind other records is the sum of them, a first Checkpoint read as what it sums.
pub(crate) fn sums_fit(
    alloc: Global,
    protocols: &Participants,
    records: &[CoordRecord],
) -> Result<bool, Memory>
    requires { in_order (coord_read (reverse records.now)) ≡ true }
    ensures { IfOk result (λ fits. IsTrue fits ↔ CoordSumsFit protocols.now (reverse records.now)) }
{
    let Some((first, newer)) = records.split_first() else {
        return Ok(true);
    };
    let mut reading = Reading::new(alloc);
    reading.take_first(alloc, protocols, first)?;
    reading.take_all(alloc, protocols, newer)
}
