//! The driver of a local transaction.
ghost use Rattle.std.specs.Prelude.{◌≡◌, ◌≤◌, ◌+◌, ◌<◌, ◌^◌, ◌&&◌, cond, IfOk};
ghost use Rattle.mdb_base.specs.declared.names.Tx.{Tx as TheTx};
ghost use Rattle.client_drivers.specs.Calls.{Notes};
ghost use Rattle.client_drivers.specs.Driving.{IsDriven};
ghost use Rattle.client_drivers.specs.Table as table;
ghost use Rattle.client_drivers.specs.SiteCalls.{command_of, is_step};

use crate::doors::{Driven, SiteDoor};
use fed_rules::Answer;
use line_text::DoorErr;
use mdb_base::Tx;

/// Calls the door until the transaction is committed, the attempts are spent, or `turns` calls were made. After each answer
/// the next call is that of the crate's table: an attempt that is refused is begun again, and one that waits `tries` times in a
/// row is aborted. A door's error is answered at once.
pub fn drive_local<S: SiteDoor>(
    door: &mut S,
    tx: Tx,
    tries: u8,
    turns: u32,
) -> Result<Driven, DoorErr>
    ensures driven { IsDriven S.tells (table.local_turn tries turns tx) door.old door.new result }
    ensures used { IfOk result (λ driven. driven.used ≤ turns) }
{
    let mut call = SiteCall::Begin;
    let mut waits: u32 = 0;
    for made in 0..turns {
        let answer = call_door(door, tx, call)?;
        if let Some(committed) = end_of(&answer) {
            return Ok(Driven {
                used: made + 1,
                committed,
            });
        }
        waits = waits_with(call, &answer, waits);
        call = next_call(call, &answer, waits, tries);
    }
    Ok(Driven {
        used: turns,
        committed: false,
    })
}

/// A call of a site's door.
#[derive(Clone, Copy)]
pub enum SiteCall {
    Begin,
    Step,
    Commit,
    Abort,
    Fate,
}

fn call_door<S: SiteDoor>(door: &mut S, tx: Tx, call: SiteCall) -> Result<Answer, DoorErr>
    ensures { Notes S.tells door.old door.new (command_of tx call) result }
{
    match call {
        SiteCall::Begin => door.begin(tx),
        SiteCall::Step => door.step(tx),
        SiteCall::Commit => door.commit(tx),
        SiteCall::Abort => door.abort(tx),
        SiteCall::Fate => door.fate(tx),
    }
}

/// Whether the answer ends a driver, and then whether the transaction is committed.
pub fn end_of(answer: &Answer) -> Option<bool>
    ensures { result ≡ table.end_of answer.now }
{
    match answer {
        Answer::Committed(_) | Answer::Sealed(..) => Some(true),
        Answer::Spent => Some(false),
        _ => None,
    }
}

/// How many steps in a row waited, this call being the last of them.
fn waits_with(call: SiteCall, answer: &Answer, waits: u32) -> u32
    requires { waits + 1 < 2 ^ 32 }
    ensures { result ≡ cond (is_step call && table.is_waits answer.now) (waits + 1) 0 }
{
    match (call, answer) {
        (SiteCall::Step, Answer::Waits(_)) => waits + 1,
        _ => 0,
    }
}

/// The next call behind this one and its answer.
fn next_call(call: SiteCall, answer: &Answer, waits: u32, tries: u8) -> SiteCall
    ensures { (tx : TheTx) → command_of tx result ≡ table.local_row tries waits tx (command_of tx call) answer.now }
{
    match call {
        SiteCall::Begin => behind_begin(answer),
        SiteCall::Step => behind_step(answer, waits, tries),
        SiteCall::Commit => behind_commit(answer),
        SiteCall::Abort => behind_abort(answer),
        SiteCall::Fate => behind_fate(answer),
    }
}

fn behind_begin(answer: &Answer) -> SiteCall
    ensures { (tx : TheTx) → command_of tx result ≡ table.behind_begin tx answer.now }
{
    match answer {
        Answer::Begun(_) | Answer::Running(_) => SiteCall::Step,
        _ => SiteCall::Fate,
    }
}

fn behind_step(answer: &Answer, waits: u32, tries: u8) -> SiteCall
    ensures { (tx : TheTx) → command_of tx result ≡ table.behind_step tries waits tx answer.now }
{
    match answer {
        Answer::Read(..) | Answer::Wrote(..) => SiteCall::Step,
        Answer::Waits(_) => behind_wait(waits, u32::from(tries)),
        Answer::Dies(_) | Answer::Late(_) => SiteCall::Begin,
        Answer::End => SiteCall::Commit,
        _ => SiteCall::Fate,
    }
}

fn behind_wait(waits: u32, tries: u32) -> SiteCall
    ensures { (tx : TheTx) → command_of tx result ≡ table.behind_wait tries waits tx }
{
    if waits < tries {
        SiteCall::Step
    } else if waits == tries {
        SiteCall::Abort
    } else {
        SiteCall::Fate
    }
}

fn behind_commit(answer: &Answer) -> SiteCall
    ensures { (tx : TheTx) → command_of tx result ≡ table.behind_commit tx answer.now }
{
    match answer {
        Answer::Invalid(..) => SiteCall::Begin,
        Answer::Unfinished => SiteCall::Step,
        _ => SiteCall::Fate,
    }
}

fn behind_abort(answer: &Answer) -> SiteCall
    ensures { (tx : TheTx) → command_of tx result ≡ table.behind_abort tx answer.now }
{
    match answer {
        Answer::Aborted(_) | Answer::Idle => SiteCall::Begin,
        _ => SiteCall::Fate,
    }
}

fn behind_fate(answer: &Answer) -> SiteCall
    ensures { (tx : TheTx) → command_of tx result ≡ table.behind_fate tx answer.now }
{
    match answer {
        Answer::Ended | Answer::Unbegun => SiteCall::Begin,
        Answer::Running(_) => SiteCall::Step,
        _ => SiteCall::Fate,
    }
}
