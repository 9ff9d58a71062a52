//! What the coordinator sends.
ghost use Rattle.std.specs.Prelude.{◌≡◌, map, IfOk};
ghost use Rattle.fed_rules.specs.Coord as rules;

use fed_rules::{Due, Dues, Sends, Sent, ToSite};
use mdb_base::{Few, Memory, Tid};
use presumptions::{Decision, Participants};
use std::alloc::Global;

/// What is outstanding as a message.
fn send_due(tid: Tid, due: Due) -> Sent
    ensures { result ≡ rules.send_due tid due }
{
    match due {
        Due::Work {
            site,
            epoch,
            n,
            act,
        } => Sent {
            site,
            message: ToSite::Work { tid, epoch, n, act },
        },
        Due::Take { site, epoch, n } => Sent {
            site,
            message: ToSite::Take { tid, epoch, n },
        },
        Due::Prepare { site, epoch, n } => Sent {
            site,
            message: ToSite::Prepare { tid, epoch, n },
        },
    }
}

/// The messages of what is outstanding.
pub fn send_dues(alloc: Global, tid: Tid, dues: &Dues) -> Result<Sends, Memory>
    ensures { IfOk result (λ sends. sends ≡ map (rules.send_due tid) dues.now) }
{
    let mut sends = Few::none();
    for due in dues.as_slice() {
        sends.push(alloc, send_due(tid, *due))?;
    }
    Ok(Sends::of_few(sends))
}

/// The decision to each of these participants.
pub fn decide_to(
    alloc: Global,
    tid: Tid,
    decision: Decision,
    members: &Participants,
) -> Result<Sends, Memory>
    ensures { IfOk result (λ sends. sends ≡ rules.decide_to tid decision members.now) }
{
    let mut sends = Few::none();
    for member in members.as_slice() {
        let sent = Sent {
            site: member.site,
            message: ToSite::Decide { tid, decision },
        };
        sends.push(alloc, sent)?;
    }
    Ok(Sends::of_few(sends))
}
