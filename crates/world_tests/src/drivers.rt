//! Drivers on tapes: each row of the table, and generated tapes against a plain computation of the table.
use crate::commands::{are_commands, told};
use client_drivers::{Answer, DoorErr, Driven, TapeDoor, drive_global, drive_local};
use fed_rules::Command;
use mdb_base::{Key, Memory, Tid, Tx};
use std::alloc::Global;
use std::test::Fail;

const TX: Tx = Tx(7);

const FIRST: Tid = Tid { tx: TX, attempt: 0 };

const SECOND: Tid = Tid { tx: TX, attempt: 1 };

const OTHER: Tid = Tid {
    tx: Tx(8),
    attempt: 0,
};

/// Answers by number.
#[derive(Clone, Copy, PartialEq, Eq)]
enum Say {
    Down,
    Begun,
    Running,
    RunningSecond,
    RunningOther,
    Read,
    Wrote,
    Waits,
    Dies,
    Late,
    End,
    Invalid,
    Unfinished,
    Aborted,
    Idle,
    Ended,
    Unbegun,
    Spent,
    Committed,
    Sealed,
}

fn answer_of(say: Say) -> Answer {
    match say {
        Say::Down => Answer::Down,
        Say::Begun => Answer::Begun(FIRST),
        Say::Running => Answer::Running(FIRST),
        Say::RunningSecond => Answer::Running(SECOND),
        Say::RunningOther => Answer::Running(OTHER),
        Say::Read => Answer::Read(Key(1), 5),
        Say::Wrote => Answer::Wrote(Key(1), 6),
        Say::Waits => Answer::Waits(OTHER),
        Say::Dies => Answer::Dies(OTHER),
        Say::Late => Answer::Late(OTHER),
        Say::End => Answer::End,
        Say::Invalid => Answer::Invalid(OTHER, Key(1)),
        Say::Unfinished => Answer::Unfinished,
        Say::Aborted => Answer::Aborted(FIRST),
        Say::Idle => Answer::Idle,
        Say::Ended => Answer::Ended,
        Say::Unbegun => Answer::Unbegun,
        Say::Spent => Answer::Spent,
        Say::Committed => Answer::Committed(FIRST),
        Say::Sealed => Answer::Sealed(FIRST, 3),
    }
}

fn tape_of(alloc: Global, says: &[Say]) -> Result<TapeDoor, Memory> {
    let mut answers = Vec::new(alloc);
    for say in says {
        answers.push(answer_of(*say))?;
    }
    Ok(TapeDoor::new(answers))
}

/// The answers that end a driver, and whether the transaction is committed then.
fn end_of(say: Say) -> Option<bool> {
    match say {
        Say::Committed => Some(true),
        Say::Sealed => Some(true),
        Say::Spent => Some(false),
        _ => None,
    }
}

/// How many of the last calls are steps that wait.
fn waits_in_row(calls: &[Command], says: &[Say]) -> u32 {
    let mut waits: u32 = 0;
    for (call, say) in calls.iter().zip(says) {
        if told(*call) == told(Command::Step(TX)) && *say == Say::Waits {
            waits = waits.saturating_add(1);
        } else {
            waits = 0;
        }
    }
    waits
}

/// The next call of the table of local transactions.
fn plain_local(calls: &[Command], says: &[Say], tries: u32) -> Command {
    let waits = waits_in_row(calls, says);
    let (Some(call), Some(say)) = (calls.last(), says.last()) else {
        return Command::Begin(TX);
    };
    match (*call, *say) {
        (Command::Step(_), Say::Dies) => Command::Begin(TX),
        (Command::Step(_), Say::Late) => Command::Begin(TX),
        (Command::Commit(_), Say::Invalid) => Command::Begin(TX),
        (Command::Abort(_), Say::Aborted) => Command::Begin(TX),
        (Command::Abort(_), Say::Idle) => Command::Begin(TX),
        (Command::Fate(_), Say::Ended) => Command::Begin(TX),
        (Command::Fate(_), Say::Unbegun) => Command::Begin(TX),
        (Command::Begin(_), Say::Begun) => Command::Step(TX),
        (Command::Begin(_), Say::Running) => Command::Step(TX),
        (Command::Step(_), Say::Read) => Command::Step(TX),
        (Command::Step(_), Say::Wrote) => Command::Step(TX),
        (Command::Step(_), Say::Waits) if waits < tries => Command::Step(TX),
        (Command::Commit(_), Say::Unfinished) => Command::Step(TX),
        (Command::Fate(_), Say::Running | Say::RunningSecond | Say::RunningOther) => {
            Command::Step(TX)
        }
        (Command::Step(_), Say::Waits) if waits == tries => Command::Abort(TX),
        (Command::Step(_), Say::End) => Command::Commit(TX),
        _ => Command::Fate(TX),
    }
}

/// The next call of the table of global transactions.
fn plain_global(calls: &[Command], says: &[Say], tries: u32) -> Command {
    let (Some(call), Some(say)) = (calls.last(), says.last()) else {
        return Command::Go(TX);
    };
    match (*call, *say) {
        (Command::Fate(_), Say::Ended) => Command::Go(TX),
        (Command::Fate(_), Say::Unbegun) => Command::Go(TX),
        (Command::Fate(_), Say::Running) => again_or_late(calls, FIRST, tries),
        (Command::Fate(_), Say::RunningSecond) => again_or_late(calls, SECOND, tries),
        _ => Command::Fate(TX),
    }
}

fn again_or_late(calls: &[Command], tid: Tid, tries: u32) -> Command {
    let mut agains: u32 = 0;
    for call in calls {
        if told(*call) == told(Command::Again(tid)) {
            agains = agains.saturating_add(1);
        }
    }
    if agains < tries {
        Command::Again(tid)
    } else {
        Command::Late(tid)
    }
}

/// An answer that the command mostly can have.
fn pick(command: Command, number: u32) -> Say {
    let choices = match command {
        Command::Begin(_) => [Say::Begun, Say::Running, Say::Begun, Say::Down],
        Command::Step(_) => match number % 3 {
            0 => [Say::Read, Say::Wrote, Say::End, Say::Waits],
            1 => [Say::Waits, Say::Waits, Say::Waits, Say::Late],
            _ => [Say::Waits, Say::Dies, Say::Read, Say::Idle],
        },
        Command::Commit(_) => [Say::Unfinished, Say::Invalid, Say::Down, Say::Unfinished],
        Command::Abort(_) => [Say::Aborted, Say::Idle, Say::Down, Say::Aborted],
        _ => match number % 3 {
            0 => [Say::Running, Say::Ended, Say::Unbegun, Say::Down],
            1 => [
                Say::Running,
                Say::RunningSecond,
                Say::Running,
                Say::RunningOther,
            ],
            _ => [Say::RunningSecond, Say::Running, Say::Begun, Say::Idle],
        },
    };
    let end = match number / 16 % 32 {
        0 => Say::Committed,
        1 => Say::Sealed,
        2 => Say::Spent,
        _ => Say::Down,
    };
    if end != Say::Down {
        return end;
    }
    match number / 4 % 4 {
        0 => choices[0],
        1 => choices[1],
        2 => choices[2],
        _ => choices[3],
    }
}

/// A tape with its calls and its end as the table has them.
#[derive(Drop)]
struct Played {
    says: Vec<Say>,
    calls: Vec<Command>,
    end: Result<Driven, DoorErr>,
}

/// Plays up to 40 answers of a generated tape.
fn play(alloc: Global, seed: u32, global: bool, tries: u32, turns: u32) -> Result<Played, Memory> {
    let mut says = Vec::new(alloc);
    let mut calls = Vec::new(alloc);
    let mut number = seed;
    for made in 0..40u32 {
        if made == turns {
            let end = Ok(Driven {
                used: turns,
                committed: false,
            });
            return Ok(Played { says, calls, end });
        }
        number = number.wrapping_mul(1_664_525).wrapping_add(1_013_904_223);
        let call = if global {
            plain_global(calls.as_slice(), says.as_slice(), tries)
        } else {
            plain_local(calls.as_slice(), says.as_slice(), tries)
        };
        let say = pick(call, number >> 8);
        calls.push(call)?;
        says.push(say)?;
        if let Some(committed) = end_of(say) {
            let end = Ok(Driven {
                used: made + 1,
                committed,
            });
            return Ok(Played { says, calls, end });
        }
    }
    let end = Err(DoorErr::Memory);
    Ok(Played { says, calls, end })
}

#[test]
fn drivers_follow_the_table_on_generated_tapes(rt: HostRuntime) -> Result<(), Fail> {
    for case in 0..300u32 {
        let tries = (case % 4) as u8;
        let turns = if case % 5 == 0 { case % 13 } else { 100 };
        let global = case % 2 == 0;
        let played = play(rt.alloc(), case, global, u32::from(tries), turns)?;
        let mut door = tape_of(rt.alloc(), played.says.as_slice())?;
        let end = if global {
            drive_global(&mut door, TX, tries, turns)
        } else {
            drive_local(&mut door, TX, tries, turns)
        };
        assert_eq!(rt; end, played.end, "end of case {case}");
        are_commands(
            &rt,
            door.calls(),
            played.calls.as_slice(),
            "the calls on a generated tape",
        );
    }
    Ok(())
}

#[test]
fn a_local_driver_goes_through_each_row(rt: HostRuntime) -> Result<(), Fail> {
    let says = [
        Say::Begun,
        Say::Read,
        Say::Wrote,
        Say::Waits,
        Say::Waits,
        Say::Aborted,
        Say::Running,
        Say::Dies,
        Say::Begun,
        Say::Late,
        Say::Down,
        Say::Running,
        Say::Waits,
        Say::End,
        Say::Unfinished,
        Say::End,
        Say::Invalid,
        Say::Begun,
        Say::Waits,
        Say::Waits,
        Say::Idle,
        Say::Down,
        Say::Ended,
        Say::Down,
        Say::Unbegun,
        Say::Begun,
        Say::End,
        Say::Sealed,
        Say::Down,
    ];
    let wanted = [
        Command::Begin(TX),
        Command::Step(TX),
        Command::Step(TX),
        Command::Step(TX),
        Command::Step(TX),
        Command::Abort(TX),
        Command::Begin(TX),
        Command::Step(TX),
        Command::Begin(TX),
        Command::Step(TX),
        Command::Begin(TX),
        Command::Fate(TX),
        Command::Step(TX),
        Command::Step(TX),
        Command::Commit(TX),
        Command::Step(TX),
        Command::Commit(TX),
        Command::Begin(TX),
        Command::Step(TX),
        Command::Step(TX),
        Command::Abort(TX),
        Command::Begin(TX),
        Command::Fate(TX),
        Command::Begin(TX),
        Command::Fate(TX),
        Command::Begin(TX),
        Command::Step(TX),
        Command::Commit(TX),
    ];
    let mut door = tape_of(rt.alloc(), says.as_slice())?;
    let end = drive_local(&mut door, TX, 2, 100);
    are_commands(
        &rt,
        door.calls(),
        wanted.as_slice(),
        "the calls of each row",
    );
    let committed = Driven {
        used: 28,
        committed: true,
    };
    assert_eq!(rt; end, Ok(committed));
    Ok(())
}

#[test]
fn a_global_driver_goes_through_each_row(rt: HostRuntime) -> Result<(), Fail> {
    let says = [
        Say::Begun,
        Say::Running,
        Say::Down,
        Say::Running,
        Say::Down,
        Say::Running,
        Say::Down,
        Say::RunningSecond,
        Say::Down,
        Say::Running,
        Say::Down,
        Say::RunningOther,
        Say::Ended,
        Say::Down,
        Say::Unbegun,
        Say::Spent,
    ];
    let wanted = [
        Command::Go(TX),
        Command::Fate(TX),
        Command::Again(FIRST),
        Command::Fate(TX),
        Command::Again(FIRST),
        Command::Fate(TX),
        Command::Late(FIRST),
        Command::Fate(TX),
        Command::Again(SECOND),
        Command::Fate(TX),
        Command::Late(FIRST),
        Command::Fate(TX),
        Command::Fate(TX),
        Command::Go(TX),
        Command::Fate(TX),
        Command::Go(TX),
    ];
    let mut door = tape_of(rt.alloc(), says.as_slice())?;
    let end = drive_global(&mut door, TX, 2, 100);
    are_commands(
        &rt,
        door.calls(),
        wanted.as_slice(),
        "the calls of each row",
    );
    let spent = Driven {
        used: 16,
        committed: false,
    };
    assert_eq!(rt; end, Ok(spent));
    Ok(())
}
