//! A site whose Checkpoint would be too long for a frame: it answers so, writes nothing, and goes on.
use super::limits::{Wanted, of_items};
use std::alloc::Global;
use std::test::Fail;

/// A command, and the answer that is wanted of it.
type Answered = (&'static str, &'static str);

/// A local transaction of site 1 that sets each key from one on, below another one, to its number, and what comes behind its commit.
#[derive(Clone, Copy)]
struct Local {
    number: u16,
    from: u16,
    below: u16,
    then: &'static [Answered],
}

const NOTHING: &[Answered] = &[];

const CHECKED: &[Answered] = &[("check 1", "checked")];

/// Nothing more is written: the Checkpoint of before and the record of the last local are kept.
const LARGE: &[Answered] = &[
    ("check 1", "large"),
    ("halt 1 0", "stopped kept 2"),
    ("back 1", "up epoch 2 doubtful 0"),
    ("check 1", "large"),
];

/// Behind 4,096 items 75 locals with 32 keys of their own each, one with 16 more, and one that sets an item to what it is.
fn locals(alloc: Global) -> Result<Vec<Local>, Fail> {
    let mut locals = Vec::new(alloc);
    for before in 0..75_u16 {
        let from = 4_096 + 32 * before;
        locals.push(Local {
            number: before + 1,
            from,
            below: from + 32,
            then: NOTHING,
        })?;
    }
    locals.push(Local {
        number: 76,
        from: 6_496,
        below: 6_512,
        then: CHECKED,
    })?;
    locals.push(Local {
        number: 77,
        from: 0,
        below: 1,
        then: LARGE,
    })?;
    Ok(locals)
}

/// Declares the transaction.
fn declare(wanted: &mut Wanted, local: &Local) -> Result<(), Fail> {
    let alloc = wanted.alloc;
    let number = local.number;
    wanted
        .input
        .push_str(&format!(in alloc; "local {number} 1")?)?;
    for key in local.from..local.below {
        wanted
            .input
            .push_str(&format!(in alloc; " set:{key}:{key}")?)?;
    }
    wanted.input.push('\n')?;
    Ok(())
}

/// It begins, makes its steps and commits, and no other one is between. The begin and the commit draw a number each.
fn commit(wanted: &mut Wanted, local: &Local) -> Result<(), Fail> {
    let alloc = wanted.alloc;
    let number = local.number;
    let drawn = number.saturating_mul(2);
    let step = format!(in alloc; "step {number}")?;
    wanted.line(
        &format!(in alloc; "begin {number}")?,
        &format!(in alloc; "begun {number}.0")?,
    )?;
    for key in local.from..local.below {
        wanted.line(&step, &format!(in alloc; "wrote {key} {key}")?)?;
    }
    wanted.line(
        &format!(in alloc; "commit {number}")?,
        &format!(in alloc; "committed {number}.0 number {drawn}")?,
    )
}

/// The whole session of a site with 4,096 items and these transactions, up to its report.
fn session_of(alloc: Global, locals: &[Local]) -> Result<Wanted, Fail> {
    let mut wanted = of_items(alloc, 4_096)?;
    for local in locals {
        declare(&mut wanted, local)?;
    }
    wanted.input.push_str("commands\n")?;
    for local in locals {
        commit(&mut wanted, local)?;
        for (command, answer) in local.then {
            wanted.line(command, answer)?;
        }
    }
    Ok(wanted)
}

/// Its report: 77 transactions in their order, none of which reads, and 6,512 rows, each of which has its key as its value.
fn report(wanted: &mut Wanted) -> Result<(), Fail> {
    let alloc = wanted.alloc;
    let mut reads = String::new(alloc);
    wanted.output.push_str("order")?;
    for number in 1..=77_u16 {
        wanted.output.push_str(&format!(in alloc; " {number}.0")?)?;
        reads.push_str(&format!(in alloc; "reads {number}.0\n")?)?;
    }
    wanted
        .output
        .push_str(&format!(in alloc; "\n{reads}forgotten\ntable 1")?)?;
    for key in 0..6_512_u16 {
        wanted.output.push_str(&format!(in alloc; " {key}={key}")?)?;
    }
    wanted.output.push_str("\nend\n")?;
    Ok(())
}

/// The payload of a site's Checkpoint has 31 bytes, 10 for each row and 5 for each committed local, where no ticket is published and
/// nothing is in doubt. With 4,096 items, 2,416 further rows and 76 locals it has 65,531 bytes; one local more, which adds no row, makes
/// 65,536, where a frame holds 65,535. A program sets at most 32 keys, so a site with as many items as there may be comes there by 76 of
/// 1,024 transactions.
#[test]
fn a_checkpoint_that_is_too_long_is_not_written(rt: HostRuntime) -> Result<(), Fail> {
    let alloc = rt.alloc();
    let locals = locals(alloc)?;
    let mut wanted = session_of(alloc, &locals)?;
    report(&mut wanted)?;
    wanted.is_met(&rt, 0)
}
