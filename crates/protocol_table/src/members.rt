//! The members of an attempt: its participants with their votes and acknowledgements.
ghost use Rattle.std.specs.Prelude.{◌≡◌, ◌<◌, map, length, slice_get, Some, IfOk};
ghost use Rattle.mdb_base.specs.Words.{some_of};
ghost use Rattle.protocol_table.specs.Attempts as spec;
ghost use Rattle.protocol_table.specs.Ends.{lacks_ack_of};

use mdb_base::{Memory, SiteId};
use presumptions::{Decision, Participants, Protocol, acks};
use std::alloc::Global;
use std::marker::Model;

/// A participant of an attempt with what counted of it: the ticket of its yes vote, and its acknowledgement of the decision.
#[derive(Clone, Copy, Debug, PartialEq, Eq)]
pub struct Member {
    pub site: SiteId,
    pub protocol: Protocol,
    pub vote: Option<u64>,
    pub acked: bool,
}

/// The members of an attempt in the order of its participants.
#[derive(Drop)]
pub struct Members {
    items: Vec<Member>,
}

impl Model for Members {
    ghost use Rattle.std.specs.Prelude.{List};
    ghost use Rattle.protocol_table.specs.declared.members.Member.{Member as TheMember};

    ghost Value = { List TheMember };

    ghost view = { λ m. m.items.items };
}

impl Members {
    /// The list of these members.
    pub fn of(items: Vec<Member>) -> Self
        ensures { result ≡ items.items }
    {
        Members { items }
    }

    /// The participants before their votes and acknowledgements.
    pub(crate) fn before_votes(
        alloc: Global,
        participants: &Participants,
    ) -> Result<Members, Memory>
        ensures { IfOk result (λ members. members ≡ map spec.member_of participants.now) }
    {
        let mut items = Vec::with_capacity(alloc, participants.len())?;
        for participant in participants.as_slice() {
            items.push(Member {
                site: participant.site,
                protocol: participant.protocol,
                vote: None,
                acked: false,
            })?;
        }
        Ok(Members { items })
    }

    /// How many members there are.
    pub fn len(&self) -> usize
        ensures { result ≡ length self.now }
    {
        self.items.len()
    }

    /// The member at this place, counted from 0.
    pub fn at(&self, place: usize) -> &Member
        requires { place < length self.now }
        ensures { slice_get self.now place ≡ Some result.now }
    {
        &self.items[place]
    }

    /// The members in their order.
    pub fn as_slice(&self) -> &[Member]
        ensures { result.now ≡ self.now }
    {
        self.items.as_slice()
    }

    /// Notes the ticket of the site's yes vote.
    pub(crate) fn note_vote(&mut self, site: SiteId, ticket: u64)
        ensures { self.new ≡ map (spec.with_vote site ticket) self.old }
    {
        note_vote(&mut self.items, site, ticket);
    }

    /// Notes the site's acknowledgement.
    pub(crate) fn note_ack(&mut self, site: SiteId)
        ensures { self.new ≡ map (spec.with_ack site) self.old }
    {
        note_ack(&mut self.items, site);
    }
}

impl Member {
    fn with_vote(self, site: SiteId, ticket: u64) -> Member
        ensures { result ≡ spec.with_vote site ticket self }
    {
        if self.site == site {
            Member {
                vote: Some(ticket),
                ..self
            }
        } else {
            self
        }
    }

    fn with_ack(self, site: SiteId) -> Member
        ensures { result ≡ spec.with_ack site self }
    {
        if self.site == site {
            Member {
                acked: true,
                ..self
            }
        } else {
            self
        }
    }

    /// Whether its acknowledgement of the decision is required and missing, in an attempt that was initiated or not.
    fn lacks_ack(&self, decision: Decision, initiated: bool) -> bool
        ensures { result ≡ spec.lacks_ack decision initiated self.now }
    {
        initiated && acks(self.protocol, decision) && !self.acked
    }
}

fn note_vote(members: &mut [Member], site: SiteId, ticket: u64)
    ensures { members.new ≡ map (spec.with_vote site ticket) members.old }
{
    for member in members.iter_mut() {
        *member = member.with_vote(site, ticket);
    }
}

fn note_ack(members: &mut [Member], site: SiteId)
    ensures { members.new ≡ map (spec.with_ack site) members.old }
{
    for member in members.iter_mut() {
        *member = member.with_ack(site);
    }
}

/// Whether the site is a member that didn't vote.
pub(crate) fn lacks_vote(members: &[Member], site: SiteId) -> bool
    ensures { result ≡ some_of (spec.lacks_vote site) members.now }
{
    members
        .iter()
        .any(|member| member.site == site && member.vote.is_none())
}

/// Whether each member voted.
pub(crate) fn all_voted(members: &[Member]) -> bool
    ensures { result ≡ spec.all_voted members.now }
{
    members.iter().all(|member| member.vote.is_some())
}

/// Whether the site's acknowledgement of the decision is required and missing.
pub(crate) fn lacks_ack_of(
    members: &[Member],
    site: SiteId,
    decision: Decision,
    initiated: bool,
) -> bool
    ensures { result ≡ some_of (lacks_ack_of site decision initiated) members.now }
{
    members.iter().any(|member| member.site == site && member.lacks_ack(decision, initiated))
}

/// Whether a required acknowledgement of the decision is missing.
pub(crate) fn lacks_ack(members: &[Member], decision: Decision, initiated: bool) -> bool
    ensures { result ≡ some_of (spec.lacks_ack decision initiated) members.now }
{
    members
        .iter()
        .any(|member| member.lacks_ack(decision, initiated))
}

/// Whether a member's protocol acknowledges the decision.
pub(crate) fn some_acks(members: &[Member], decision: Decision) -> bool
    ensures { result ≡ some_of (spec.member_acks decision) members.now }
{
    members.iter().any(|member| acks(member.protocol, decision))
}
