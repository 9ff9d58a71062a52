//! What the votes of the sites change of the tables.
ghost use Rattle.std.specs.Prelude.{◌≡◌, false, true, None, Some, map, IfOk};
ghost use Rattle.mdb_base.specs.Rising.{IsRising};
ghost use Rattle.mdb_base.specs.Words.{each_of};
ghost use Rattle.fed_rules.specs.CoordPast.{is_open};
ghost use Rattle.global_exec.specs.Firsts.{replaced};
ghost use Rattle.global_exec.specs.Live as live;
ghost use Rattle.protocol_table.specs.declared.members.Member.{Member as TheMember};
ghost use Rattle.protocol_table.specs.Attempts.{changed, with_vote};
ghost use Rattle.protocol_table.specs.Ends.{after_vote};
ghost use Rattle.coord_tables.specs.Tables.{EachServed, SomeServed};
ghost use Rattle.coord_tables.specs.Voting as spec;
ghost use Rattle.coord_tables.specs.Voting.{CountsVote};

use crate::tables::Tables;
use mdb_base::{Memory, SiteId, SiteTicket, Tickets, Tid};
use protocol_table::{Member, Members};
use std::alloc::Global;

/// The vote of a member, once this yes vote of the site counts.
fn vote_with(member: &Member, site: SiteId, ticket: u64) -> Option<u64>
    ensures { result ≡ (with_vote site ticket member.now).vote }
{
    if member.site == site {
        Some(ticket)
    } else {
        member.vote
    }
}

/// Whether each member voted, once this yes vote of the site counts.
fn all_vote_with(members: &[Member], site: SiteId, ticket: u64) -> bool
    ensures { result ≡ each_of (spec.votes_with site ticket) members.now }
{
    for member in members {
        if vote_with(member, site, ticket).is_none() {
            return false;
        }
    }
    true
}

/// The ticket of a member's yes vote, once this one of the site counts, or 0 where it didn't vote.
fn ticket_with(member: &Member, site: SiteId, ticket: u64) -> SiteTicket
    ensures { result ≡ spec.ticket_with site ticket member.now }
{
    SiteTicket {
        site: member.site,
        ticket: vote_with(member, site, ticket).unwrap_or(0),
    }
}

/// The tickets of the members' yes votes, once this one of the site counts.
fn tickets_with(
    alloc: Global,
    members: &Members,
    site: SiteId,
    ticket: u64,
) -> Result<Tickets, Memory>
    requires { IsRising (λ (member : TheMember). member.site.0) members.now }
    ensures { IfOk result (λ tickets. tickets ≡ map (spec.ticket_with site ticket) members.now) }
{
    let mut tickets = Vec::with_capacity(alloc, members.len())?;
    for member in members.as_slice() {
        tickets.push(ticket_with(member, site, ticket))?;
    }
    Ok(Tickets::of(tickets))
}

impl Tables {
    /// The tickets of all votes by rising site, where this yes vote is the last one of an undecided attempt.
    pub fn last_tickets(
        &self,
        alloc: Global,
        site: SiteId,
        tid: Tid,
        ticket: u64,
    ) -> Result<Option<Tickets>, Memory>
        requires { SomeServed self.now (λ terms past. is_open past tid ≡ true) }
        ensures { IfOk result (λ last. EachServed self.now (λ terms past. CountsVote site tid terms past → last ≡ spec.last_tickets terms.protocols past site tid ticket)) }
    {
        match self.known.known(tid) {
            None => unreachable!(),
            Some(known) => {
                if !all_vote_with(known.members.as_slice(), site, ticket) {
                    return Ok(None);
                }
                let tickets = tickets_with(alloc, &known.members, site, ticket)?;
                Ok(Some(tickets))
            }
        }
    }

    /// Notes a yes vote that counts.
    pub fn vote(&mut self, site: SiteId, tid: Tid, ticket: u64)
        ensures { self.new ≡ record self.old {
          known = changed tid (after_vote site ticket) self.old.known;
          exec = replaced (live.is_of tid) (live.voted site) self.old.exec;
        } }
    {
        let _ = self.known.vote(tid, site, ticket);
        self.exec.voted(tid, site);
    }
}
