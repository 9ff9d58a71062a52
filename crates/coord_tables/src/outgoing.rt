//! What is outstanding, as it goes out: what the policy lets pass, and what of it are Takes and Prepares.
ghost use Rattle.std.specs.Prelude.{◌≡◌, map, IfOk};
ghost use Rattle.mdb_base.specs.Rising.{IsRising};
ghost use Rattle.mdb_base.specs.Words.{some_of};
ghost use Rattle.fed_rules.specs.Coord as rules;
ghost use Rattle.protocol_table.specs.declared.members.Member.{Member as TheMember};
ghost use Rattle.protocol_table.specs.Attempts.{participant_of};
ghost use Rattle.coord_tables.specs.Sending as spec;

use fed_rules::{Due, Dues};
use mdb_base::{Few, Memory};
use presumptions::{Participant, Participants};
use protocol_table::Members;
use std::alloc::Global;

fn is_prepare(due: Due) -> bool
    ensures { result ≡ rules.is_prepare due }
{
    matches!(due, Due::Prepare { .. })
}

fn is_take(due: Due) -> bool
    ensures { result ≡ rules.is_take due }
{
    matches!(due, Due::Take { .. })
}

/// Whether the policy, if it doesn't let Takes pass, holds this back.
fn is_held(may: bool, due: Due) -> bool
    ensures { result ≡ spec.is_held may due }
{
    is_take(due) && !may
}

/// Whether there is a Prepare among these.
pub fn some_prepare(dues: &Dues) -> bool
    ensures { result ≡ some_of rules.is_prepare dues.now }
{
    for due in dues.as_slice() {
        if is_prepare(*due) {
            return true;
        }
    }
    false
}

/// Whether there is a Take among these.
pub fn some_take(dues: &Dues) -> bool
    ensures { result ≡ some_of rules.is_take dues.now }
{
    for due in dues.as_slice() {
        if is_take(*due) {
            return true;
        }
    }
    false
}

/// Whether something of these is held back.
pub fn some_held(may: bool, dues: &Dues) -> bool
    ensures { result ≡ some_of (spec.is_held may) dues.now }
{
    for due in dues.as_slice() {
        if is_held(may, *due) {
            return true;
        }
    }
    false
}

/// What the policy lets pass.
pub fn passed(alloc: Global, may: bool, dues: &Dues) -> Result<Dues, Memory>
    ensures { IfOk result (λ through. through ≡ spec.passed may dues.now) }
{
    let mut through = Few::none();
    for due in dues.as_slice() {
        if !is_held(may, *due) {
            through.push(alloc, *due)?;
        }
    }
    Ok(Dues::of_few(through))
}

/// The members as participants.
pub fn participants_of(alloc: Global, members: &Members) -> Result<Participants, Memory>
    requires { IsRising (λ (member : TheMember). member.site.0) members.now }
    ensures { IfOk result (λ participants. participants ≡ map participant_of members.now) }
{
    let mut participants = Vec::with_capacity(alloc, members.len())?;
    for member in members.as_slice() {
        participants.push(Participant {
            site: member.site,
            protocol: member.protocol,
        })?;
    }
    Ok(Participants::of(participants))
}
