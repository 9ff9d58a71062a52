//! Commands and lines, by which tests compare them: a command is told by its word and up to three numbers.
use fed_rules::{Command, Line};
use std::process::Abort;

/// A word, and what stands behind it; 0 where nothing does.
pub(super) type Told = (&'static str, u64, u64, u64);

/// What a command is told by.
pub(super) fn told(command: Command) -> Told {
    match command {
        Command::Begin(tx) => ("begin", u64::from(tx.0), 0, 0),
        Command::Step(tx) => ("step", u64::from(tx.0), 0, 0),
        Command::Commit(tx) => ("commit", u64::from(tx.0), 0, 0),
        Command::Abort(tx) => ("abort", u64::from(tx.0), 0, 0),
        Command::Fate(tx) => ("fate", u64::from(tx.0), 0, 0),
        Command::Go(tx) => ("go", u64::from(tx.0), 0, 0),
        Command::Again(tid) => ("again", u64::from(tid.tx.0), u64::from(tid.attempt), 0),
        Command::Late(tid) => ("late", u64::from(tid.tx.0), u64::from(tid.attempt), 0),
        Command::Give { site, place } => ("give", u64::from(site.0), u64::from(place), 0),
        Command::Take { site, place } => ("take", u64::from(site.0), u64::from(place), 0),
        Command::Ask { site, tid } => (
            "ask",
            u64::from(site.0),
            u64::from(tid.tx.0),
            u64::from(tid.attempt),
        ),
        Command::Drop { site, tid } => (
            "drop",
            u64::from(site.0),
            u64::from(tid.tx.0),
            u64::from(tid.attempt),
        ),
        Command::Halt { actor, cut } => ("halt", u64::from(actor), cut, 0),
        Command::Trip { actor, calls, cut } => ("trip", u64::from(actor), u64::from(calls), cut),
        Command::Back { actor } => ("back", u64::from(actor), 0, 0),
        Command::Check { actor } => ("check", u64::from(actor), 0, 0),
    }
}

/// Whether two lines are the same.
pub(super) fn is_same_line(one: &Line, other: &Line) -> bool {
    told(one.command) == told(other.command)
        && one.answer == other.answer
        && one.sends == other.sends
}

/// The commands are the wanted ones.
pub(super) fn are_commands(rt: &impl Abort, made: &[Command], wanted: &[Command], text: &str) {
    assert_eq!(rt; made.len(), wanted.len(), "{text}");
    for (one, other) in made.iter().zip(wanted) {
        assert_eq!(rt; told(*one), told(*other), "{text}");
    }
}
