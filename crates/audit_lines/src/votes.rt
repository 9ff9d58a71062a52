//! The attempt that a vote may decide.
ghost use Rattle.std.specs.Prelude.{◌≡◌, IfOk};
ghost use Rattle.audit_lines.specs.Votes as spec;

use mdb_base::{Memory, SiteId, SiteTicket, Tid};
use protocol_table::{Known, Member};
use std::alloc::Global;

/// A candidate for a commit: an attempt whose vote comes, with the tickets of its yes votes, this one among them, by rising site.
#[derive(Drop)]
pub struct Candidate {
    pub tid: Tid,
    pub tickets: Vec<SiteTicket>,
}

/// The ticket of a member's yes vote, with this vote of the site.
fn ticket_with(member: &Member, site: SiteId, vote: Option<u64>) -> Option<SiteTicket>
    ensures { result ≡ spec.ticket_with site vote member.now }
{
    let own = if member.site == site {
        vote.or(member.vote)
    } else {
        member.vote
    };
    let ticket = own?;
    Some(SiteTicket {
        site: member.site,
        ticket,
    })
}

/// The tickets of these members' yes votes, with this vote of the site.
fn tickets_with(
    alloc: Global,
    members: &[Member],
    site: SiteId,
    vote: Option<u64>,
) -> Result<Vec<SiteTicket>, Memory>
    ensures { IfOk result (λ tickets. tickets.items ≡ spec.tickets_with site vote members.now) }
{
    let mut tickets = Vec::new(alloc);
    for member in members {
        match ticket_with(member, site, vote) {
            Some(ticket) => tickets.push(ticket)?,
            None => {}
        }
    }
    Ok(tickets)
}

impl Candidate {
    /// A known attempt, with this vote of the site.
    pub fn of(
        alloc: Global,
        known: &Known,
        site: SiteId,
        vote: Option<u64>,
    ) -> Result<Candidate, Memory>
        ensures tid { IfOk result (λ candidate. candidate.tid ≡ known.now.tid) }
        ensures tickets { IfOk result (λ candidate. candidate.tickets.items ≡ spec.tickets_with site vote known.now.members) }
    {
        Ok(Candidate {
            tid: known.tid,
            tickets: tickets_with(alloc, known.members.as_slice(), site, vote)?,
        })
    }
}
