//! The class of an attempt: uniform where all its participants have one protocol, and else mixed. Which class has which records is this
//! project's profile.
ghost use Rattle.std.specs.Prelude.{◌≡◌, map};
ghost use Rattle.fed_rules.specs.CoordRecords.{class_of, all_follow, same_protocol};
ghost use Rattle.protocol_table.specs.Attempts.{participant_of, uniform_of};

use crate::members::Member;
use presumptions::Protocol;

fn same(one: Protocol, other: Protocol) -> bool
    ensures { result ≡ same_protocol one other }
{
    match one {
        Protocol::Nothing => matches!(other, Protocol::Nothing),
        Protocol::Abort => matches!(other, Protocol::Abort),
        Protocol::Commit => matches!(other, Protocol::Commit),
    }
}

/// Whether all members have the protocol.
fn all_follow(members: &[Member], protocol: Protocol) -> bool
    ensures { result ≡ all_follow protocol (map participant_of members.now) }
{
    members.iter().all(|member| same(member.protocol, protocol))
}

/// The protocol that all members have; none where they differ, or where there is no member.
pub fn uniform(members: &[Member]) -> Option<Protocol>
    ensures { result ≡ uniform_of (class_of (map participant_of members.now)) }
{
    if members.is_empty() {
        return None;
    }
    let protocol = members[0].protocol;
    if all_follow(members, protocol) {
        Some(protocol)
    } else {
        None
    }
}
