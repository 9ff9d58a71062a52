//! Merges against a plain computation of the definition.
ghost use Rattle.std.specs.Prelude.{◌≡◌, IfOk, length};
ghost use Rattle.mdb_base.specs.Words.{Each};
ghost use Rattle.trace_merge.specs.Traces.{StampsRise};

use crate::commands::{are_commands, is_same_line, told};
use fed_rules::{Answer, Cause, Command, Line, Place, Places, Stamped, StampedLines};
use mdb_base::{Edge, Edges, Memory, SiteId, Tid, Tx};
use presumptions::Decision;
use std::alloc::Global;
use std::test::Fail;
use trace_merge::merge_traces;

/// A line that names its actor and its stamp.
fn mark(actor: u8, stamp: u64) -> Stamped
    ensures { result.stamp ≡ stamp }
{
    Stamped {
        stamp,
        line: Line {
            command: Command::Halt { actor, cut: stamp },
            answer: Answer::Set,
            sends: Places::none(),
        },
    }
}

/// Up to six lines of an actor: each digit of `code` to the base 4 that isn't 0 says how much the next stamp rises.
fn lines_of(alloc: Global, actor: u8, code: u32) -> Result<StampedLines, Memory>
    ensures { IfOk result (λ lines. StampsRise lines) }
{
    let mut lines = Vec::new(alloc);
    let mut stamp: u64 = 0;
    let mut digits = code;
    for _ in 0..6u8 {
        let rise = u64::from(digits % 4);
        digits /= 4;
        if rise > 0 && stamp < 100 {
            stamp += rise;
            lines.push(mark(actor, stamp))?;
        }
    }
    Ok(StampedLines::of(lines))
}

/// The lists of nine actors.
fn nine_lists(alloc: Global, codes: &[u32]) -> Result<Vec<StampedLines>, Memory>
    requires { length codes.now ≡ 9 }
    ensures length { IfOk result (λ lists. length lists.items ≡ 9) }
    ensures rise { IfOk result (λ lists. Each StampsRise lists.items) }
{
    let mut lists = Vec::new(alloc);
    for (actor, code) in codes.iter().enumerate() {
        lists.push(lines_of(alloc, actor as u8, *code)?)?;
    }
    Ok(lists)
}

/// The lines by the definition: for each stamp those of each actor.
fn plain(alloc: Global, lists: &[StampedLines]) -> Result<Vec<Command>, Memory> {
    let mut commands = Vec::new(alloc);
    for stamp in 0..=18u64 {
        for list in lists {
            for stamped in list.as_slice() {
                if stamped.stamp == stamp {
                    commands.push(stamped.line.command)?;
                }
            }
        }
    }
    Ok(commands)
}

fn commands_of(alloc: Global, lines: &StampedLines) -> Result<Vec<Command>, Memory> {
    let mut commands = Vec::new(alloc);
    for stamped in lines.as_slice() {
        commands.push(stamped.line.command)?;
    }
    Ok(commands)
}

#[test]
fn the_lesser_actor_comes_first_at_one_stamp(rt: HostRuntime) -> Result<(), Fail> {
    let alloc = rt.alloc();
    let codes = [0b1001, 0b0110, 0b01, 0, 0, 0, 0, 0, 0b11];
    let lists = nine_lists(alloc, codes.as_slice())?;
    let merged = merge_traces(alloc, lists.as_slice())?;
    let wanted = [
        Command::Halt { actor: 0, cut: 1 },
        Command::Halt { actor: 2, cut: 1 },
        Command::Halt { actor: 1, cut: 2 },
        Command::Halt { actor: 0, cut: 3 },
        Command::Halt { actor: 1, cut: 3 },
        Command::Halt { actor: 8, cut: 3 },
    ];
    let commands = commands_of(alloc, &merged)?;
    are_commands(&rt, commands.as_slice(), wanted.as_slice(), "one stamp");
    Ok(())
}

#[test]
fn generated_lists_are_merged_as_defined(rt: HostRuntime) -> Result<(), Fail> {
    let alloc = rt.alloc();
    let mut number: u32 = 1;
    for case in 0..300u32 {
        let mut codes = [0u32; 9];
        for code in codes.iter_mut() {
            number = number.wrapping_mul(1_664_525).wrapping_add(1_013_904_223);
            *code = number >> 20;
        }
        let lists = nine_lists(alloc, codes.as_slice())?;
        let merged = merge_traces(alloc, lists.as_slice())?;
        let commands = commands_of(alloc, &merged)?;
        let wanted = plain(alloc, lists.as_slice())?;
        are_commands(
            &rt,
            commands.as_slice(),
            wanted.as_slice(),
            "generated lists",
        );
    }
    Ok(())
}

#[test]
fn a_line_is_copied_whole(rt: HostRuntime) -> Result<(), Fail> {
    let alloc = rt.alloc();
    let tid = Tid {
        tx: Tx(7),
        attempt: 1,
    };
    let edge = Edge {
        from: tid,
        to: tid,
        site: SiteId(2),
    };
    let place = Place {
        site: SiteId(2),
        place: 5,
    };
    let line = Line {
        command: Command::Late(tid),
        answer: Answer::Decides {
            decision: Decision::Abort,
            cause: Some(Cause::Cycle(Edges::of(vec![in alloc; edge, edge]?))),
            forgets: true,
        },
        sends: Places::one(place),
    };
    let stamped = Stamped { stamp: 9, line };
    let copy = stamped.clone()?;
    assert!(rt; is_same_line(&copy.line, &stamped.line));
    assert_eq!(rt; (copy.stamp, stamped.stamp), (9, 9));
    assert_eq!(rt; told(copy.line.command), told(Command::Late(tid)));
    assert!(rt; copy.line.sends.as_slice() == [place].as_slice());
    match &copy.line.answer {
        Answer::Decides {
            cause: Some(Cause::Cycle(edges)),
            ..
        } => assert_eq!(rt; edges.as_slice(), [edge, edge].as_slice()),
        _ => assert!(rt; false),
    }
    Ok(())
}
