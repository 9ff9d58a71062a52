//! A command from its words.
ghost use Rattle.std.specs.Prelude.{◌≡◌};
ghost use Rattle.trace_lines.specs.Reading as reading;

use crate::numbers::{actor_of, at_most, calls_of, site_of, small_of, tx_of};
use fed_rules::Command;
use line_text::Word::{Attempt, Number, Plain};
use line_text::{Keyword, Word};
use mdb_base::Tid;

pub fn number_command(keyword: Keyword, number: u64) -> Option<Command>
    ensures { result ≡ reading.number_command keyword number }
{
    match keyword {
        Keyword::Begin => Some(Command::Begin(tx_of(number)?)),
        Keyword::Step => Some(Command::Step(tx_of(number)?)),
        Keyword::Commit => Some(Command::Commit(tx_of(number)?)),
        Keyword::Abort => Some(Command::Abort(tx_of(number)?)),
        Keyword::Fate => Some(Command::Fate(tx_of(number)?)),
        Keyword::Go => Some(Command::Go(tx_of(number)?)),
        Keyword::Back => Some(Command::Back {
            actor: actor_of(number)?,
        }),
        Keyword::Check => Some(Command::Check {
            actor: actor_of(number)?,
        }),
        _ => None,
    }
}

fn attempt_command(keyword: Keyword, tid: Tid) -> Option<Command>
    ensures { result ≡ reading.attempt_command keyword tid }
{
    match keyword {
        Keyword::Again => Some(Command::Again(tid)),
        Keyword::Late => Some(Command::Late(tid)),
        _ => None,
    }
}

pub fn pair_command(keyword: Keyword, first: u64, second: u64) -> Option<Command>
    ensures { result ≡ reading.pair_command keyword first second }
{
    match keyword {
        Keyword::Give => Some(Command::Give {
            site: site_of(first)?,
            place: small_of(second)?,
        }),
        Keyword::Take => Some(Command::Take {
            site: site_of(first)?,
            place: small_of(second)?,
        }),
        Keyword::Halt => Some(Command::Halt {
            actor: actor_of(first)?,
            cut: at_most(65_535, second)?,
        }),
        _ => None,
    }
}

fn site_command(keyword: Keyword, number: u64, tid: Tid) -> Option<Command>
    ensures { result ≡ reading.site_command keyword number tid }
{
    match keyword {
        Keyword::Ask => Some(Command::Ask {
            site: site_of(number)?,
            tid,
        }),
        Keyword::Drop => Some(Command::Drop {
            site: site_of(number)?,
            tid,
        }),
        _ => None,
    }
}

fn triple_command(keyword: Keyword, first: u64, second: u64, third: u64) -> Option<Command>
    ensures { result ≡ reading.triple_command keyword first second third }
{
    match keyword {
        Keyword::Trip => Some(Command::Trip {
            actor: actor_of(first)?,
            calls: calls_of(second)?,
            cut: at_most(65_535, third)?,
        }),
        _ => None,
    }
}

/// The command of these words.
pub fn command_of(words: &[Word]) -> Option<Command>
    ensures { result ≡ reading.command_of words.now }
{
    match words {
        [Plain(keyword), Number(number)] => number_command(*keyword, *number),
        [Plain(keyword), Attempt(tid)] => attempt_command(*keyword, *tid),
        [Plain(keyword), Number(first), Number(second)] => pair_command(*keyword, *first, *second),
        [Plain(keyword), Number(number), Attempt(tid)] => site_command(*keyword, *number, *tid),
        [Plain(keyword), Number(first), Number(second), Number(third)] => {
            triple_command(*keyword, *first, *second, *third)
        }
        _ => None,
    }
}
