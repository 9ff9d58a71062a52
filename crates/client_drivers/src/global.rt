//! The driver of a global transaction.
ghost use Rattle.std.specs.Prelude.{◌≡◌, ◌≤◌, ◌+◌, ◌<◌, ◌^◌, ℕ, slice_index, IfOk};
ghost use Rattle.mdb_base.specs.declared.names.Tid.{Tid as TheTid};
ghost use Rattle.client_drivers.specs.Calls.{Notes};
ghost use Rattle.client_drivers.specs.Driving.{IsDriven};
ghost use Rattle.client_drivers.specs.Table as table;
ghost use Rattle.client_drivers.specs.CoordCalls.{command_of, counted, IsByte};

use crate::doors::{CoordDoor, Driven};
use crate::local::end_of;
use fed_rules::Answer;
use line_text::DoorErr;
use mdb_base::{Tid, Tx};

/// Calls the door until the transaction is committed, the attempts are spent, or `turns` calls were made. After each answer
/// the next call is that of the crate's table: an attempt that runs is asked again, and given up after `tries` agains of it. A
/// door's error is answered at once.
pub fn drive_global<C: CoordDoor>(
    door: &mut C,
    tx: Tx,
    tries: u8,
    turns: u32,
) -> Result<Driven, DoorErr>
    ensures driven { IsDriven C.tells (table.global_turn tries turns tx) door.old door.new result }
    ensures used { IfOk result (λ driven. driven.used ≤ turns) }
{
    let mut call = CoordCall::Go;
    // For each attempt, how many agains of it were made.
    let mut agains = [0u32; 256];
    for made in 0..turns {
        let answer = call_door(door, tx, call)?;
        if let Some(committed) = end_of(&answer) {
            return Ok(Driven {
                used: made + 1,
                committed,
            });
        }
        count_again(&mut agains, call);
        call = next_call(call, &answer, tx, &agains, tries);
    }
    Ok(Driven {
        used: turns,
        committed: false,
    })
}

/// A call of the coordinator's door.
#[derive(Clone, Copy)]
pub enum CoordCall {
    Go,
    Fate,
    /// The attempt with this number.
    Again(u8),
    /// The attempt with this number.
    Late(u8),
}

fn call_door<C: CoordDoor>(door: &mut C, tx: Tx, call: CoordCall) -> Result<Answer, DoorErr>
    ensures { Notes C.tells door.old door.new (command_of tx call) result }
{
    match call {
        CoordCall::Go => door.go(tx),
        CoordCall::Fate => door.fate(tx),
        CoordCall::Again(attempt) => door.again(Tid { tx, attempt }),
        CoordCall::Late(attempt) => door.late(Tid { tx, attempt }),
    }
}

/// Counts an again of its attempt.
fn count_again(agains: &mut [u32; 256], call: CoordCall)
    requires { (attempt : ℕ) → slice_index agains.old attempt + 1 < 2 ^ 32 }
    ensures counts { agains.new ≡ counted call agains.old }
    ensures number { IsByte call }
{
    if let CoordCall::Again(attempt) = call {
        agains[attempt as usize] += 1;
    }
}

/// The next call behind this one and its answer.
fn next_call(call: CoordCall, answer: &Answer, tx: Tx, agains: &[u32; 256], tries: u8) -> CoordCall
    ensures { command_of tx result ≡ table.global_row tries (λ (tid : TheTid). slice_index agains.now tid.attempt) tx (command_of tx call) answer.now }
{
    match call {
        CoordCall::Fate => behind_fate(answer, tx, agains, tries),
        _ => CoordCall::Fate,
    }
}

fn behind_fate(answer: &Answer, tx: Tx, agains: &[u32; 256], tries: u8) -> CoordCall
    ensures { command_of tx result ≡ table.behind_global_fate tries (λ (tid : TheTid). slice_index agains.now tid.attempt) tx answer.now }
{
    match answer {
        Answer::Ended | Answer::Unbegun => CoordCall::Go,
        Answer::Running(tid) if tid.tx == tx => {
            if agains[tid.attempt as usize] < u32::from(tries) {
                CoordCall::Again(tid.attempt)
            } else {
                CoordCall::Late(tid.attempt)
            }
        }
        _ => CoordCall::Fate,
    }
}
