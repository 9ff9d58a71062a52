//! The table and its calls.
ghost use Rattle.std.specs.Prelude.{◌≡◌, ◌<◌, None, Some, [], ◌∷◌, ◌++◌, map, length, slice_get, cond, false, IfOk, OnOk, OnErr, option_copied};
ghost use Rattle.mdb_base.specs.Words.{map_some, or_else};
ghost use Rattle.protocol_table.specs.Attempts.{AreApart, IsUndecided, changed, known_of, restored, submitted, without};
ghost use Rattle.protocol_table.specs.Ends as spec;
ghost use Rattle.protocol_table.specs.declared.ends.VoteEnd.TheVariants as Vote;
ghost use Rattle.protocol_table.specs.declared.ends.AckEnd.TheVariants as Ack;

use crate::ends::{AckEnd, Said, VoteEnd};
use crate::entries::{Entries, Name, add, find, take_out};
use crate::known::{Known, Restored};
use crate::members::Members;
use indexmap::IndexMap;
use mdb_base::{Memory, SiteId, Tid};
use presumptions::{Decision, Participants, Protocol, presumed};
use std::alloc::Global;
use std::marker::Model;

/// The attempts that the coordinator knows, seen as a list in order of submission.
#[derive(Drop)]
pub struct ProtocolTable {
    entries: Entries,
}

impl Model for ProtocolTable {
    ghost use Rattle.std.specs.Prelude.{List};
    ghost use Rattle.indexmap.specs.IndexMap.{values};
    ghost use Rattle.protocol_table.specs.declared.known.Known.{Known as TheKnown};
    ghost use Rattle.protocol_table.specs.Entries.{AreNamed};

    ghost Value = { List TheKnown };

    ghost view = { λ t. values t.entries };

    ghost invariant = { λ t. AreNamed t.entries.entries };
}

impl ProtocolTable {
    /// A table without attempts.
    pub fn new(alloc: Global) -> Result<ProtocolTable, Memory>
        ensures { IfOk result (λ table. table ≡ []) }
    {
        Ok(ProtocolTable {
            entries: IndexMap::new(alloc),
        })
    }

    /// How many attempts are known.
    pub fn len(&self) -> usize
        ensures count { result ≡ length self.now }
        ensures apart { AreApart (map (λ known. known.tid) self.now) }
    {
        self.entries.len()
    }

    /// The known attempt at this place, counted from 0 in order of submission.
    pub fn at(&self, place: usize) -> &Known
        requires { place < length self.now }
        ensures { slice_get self.now place ≡ Some result.now }
    {
        match self.entries.get_index(place) {
            Some((_, known)) => known,
            None => unreachable!(),
        }
    }

    /// Adds an attempt that isn't listed, undecided and without a record. Without memory the table stays as it was.
    pub fn submit(
        &mut self,
        alloc: Global,
        tid: Tid,
        participants: &Participants,
    ) -> Result<(), Memory>
        requires { known_of tid self.old ≡ None }
        ensures listed { OnOk result (self.new ≡ self.old ++ submitted tid participants.now ∷ []) }
        ensures kept { OnErr result (self.new ≡ self.old) }
    {
        let members = Members::before_votes(alloc, participants)?;
        let known = Known {
            tid,
            initiated: false,
            members,
            decision: None,
        };
        add(&mut self.entries, known)?;
        Ok(())
    }

    /// Makes these attempts the whole table, as a restart finds them: with a record, decided commit where a Commit record is kept and
    /// else abort, without votes and acknowledgements. Without memory the table stays as it was.
    pub fn restore(&mut self, alloc: Global, attempts: &[Restored]) -> Result<(), Memory>
        requires { AreApart (map (λ kept. kept.tid) attempts.now) }
        ensures listed { OnOk result (self.new ≡ map restored attempts.now) }
        ensures kept { OnErr result (self.new ≡ self.old) }
    {
        let mut entries = IndexMap::with_capacity(alloc, attempts.len())?;
        for attempt in attempts {
            let known = Known::restored(alloc, attempt)?;
            add(&mut entries, known)?;
        }
        self.entries = entries;
        Ok(())
    }

    /// Notes that the first record of a known, undecided attempt was written, its Initiation or that of its decision.
    pub fn initiate(&mut self, tid: Tid)
        requires { IsUndecided tid self.old }
        ensures { self.new ≡ changed tid spec.initiate self.old }
    {
        let known = match self.entries.get_mut(&Name::of(tid)) {
            Some(known) => known,
            None => return,
        };
        known.initiated = true;
    }

    /// Counts a site's yes vote with its ticket. It is ignored exactly where the attempt isn't listed or is decided, the site is no
    /// member, or a vote of it was counted.
    pub fn vote(&mut self, tid: Tid, site: SiteId, ticket: u64) -> VoteEnd
        ensures end { result ≡ or_else (map_some (spec.vote_end site ticket) (known_of tid self.old)) Vote.Ignored }
        ensures table { self.new ≡ changed tid (spec.after_vote site ticket) self.old }
    {
        let known = match self.entries.get_mut(&Name::of(tid)) {
            Some(known) => known,
            None => return VoteEnd::Ignored,
        };
        known.vote(site, ticket)
    }

    /// Decides a known, undecided attempt, and answers whether it is forgotten at once, because no acknowledgement is required.
    pub fn decide(&mut self, tid: Tid, decision: Decision) -> bool
        requires { IsUndecided tid self.old }
        ensures forgets { result ≡ or_else (map_some (spec.forgets_at_once decision) (known_of tid self.old)) false }
        ensures table { self.new ≡ cond result (without tid self.old) (changed tid (spec.decide decision) self.old) }
    {
        let known = match self.entries.get_mut(&Name::of(tid)) {
            Some(known) => known,
            None => return false,
        };
        let forgets = known.forgets_at_once(decision);
        known.decision = Some(decision);
        if forgets {
            take_out(&mut self.entries, tid);
        }
        forgets
    }

    /// Counts a site's acknowledgement of the decision, where it is required and none of that site counted. The last required one
    /// takes the attempt out.
    pub fn ack(&mut self, tid: Tid, site: SiteId) -> AckEnd
        ensures end { result ≡ or_else (map_some (spec.ack_end site) (known_of tid self.old)) Ack.Ignored }
        ensures table { self.new ≡ spec.after_ack result tid site self.old }
    {
        let known = match self.entries.get_mut(&Name::of(tid)) {
            Some(known) => known,
            None => return AckEnd::Ignored,
        };
        match known.ack(site) {
            AckEnd::Ignored => AckEnd::Ignored,
            AckEnd::Acked => AckEnd::Acked,
            AckEnd::Forgets => {
                take_out(&mut self.entries, tid);
                AckEnd::Forgets
            }
        }
    }

    /// The known attempt of this name.
    pub fn known(&self, tid: Tid) -> Option<&Known>
        ensures { option_copied result ≡ known_of tid self.now }
    {
        find(&self.entries, tid)
    }

    /// The answer to an inquiry of a site with this protocol: nothing while undecided, the decision while known, and else the
    /// inquirer's presumption.
    pub fn answer(&self, tid: Tid, inquirer: Protocol) -> Said
        ensures { result ≡ spec.said inquirer (known_of tid self.now) }
    {
        match find(&self.entries, tid) {
            None => Said::Presumed(presumed(inquirer)),
            Some(known) => match known.decision {
                None => Said::Undecided,
                Some(decision) => Said::Known(decision),
            },
        }
    }
}
