//! A command as bytes. After want of memory the bytes still begin with what they were.
ghost use Rattle.std.specs.Prelude.{◌≡◌, ◌++◌, OnOk, OnErr};
ghost use Rattle.mdb_base.specs.Texts.{BeginsWith};
ghost use Rattle.line_text.specs.Spelling.{command_words, words_bytes};

use crate::pieces::{put_attempt, put_count, put_counts, put_site_attempt};
use fed_rules::Command;
use mdb_base::Memory;

/// Appends the words of a command.
pub fn put_command(out: &mut Vec<u8>, command: Command) -> Result<(), Memory>
    ensures ok { OnOk result (out.new.items ≡ out.old.items ++ words_bytes (command_words command)) }
    ensures err { OnErr result (BeginsWith out.old.items out.new.items) }
{
    match command {
        Command::Begin(tx) => put_count(out, "begin ", u64::from(tx.0)),
        Command::Step(tx) => put_count(out, "step ", u64::from(tx.0)),
        Command::Commit(tx) => put_count(out, "commit ", u64::from(tx.0)),
        Command::Abort(tx) => put_count(out, "abort ", u64::from(tx.0)),
        Command::Fate(tx) => put_count(out, "fate ", u64::from(tx.0)),
        Command::Go(tx) => put_count(out, "go ", u64::from(tx.0)),
        Command::Again(tid) => put_attempt(out, "again ", tid),
        Command::Late(tid) => put_attempt(out, "late ", tid),
        Command::Give { site, place } => {
            put_counts(out, "give ", u64::from(site.0), u64::from(place))
        }
        Command::Take { site, place } => {
            put_counts(out, "take ", u64::from(site.0), u64::from(place))
        }
        Command::Ask { site, tid } => put_site_attempt(out, "ask ", site, tid),
        Command::Drop { site, tid } => put_site_attempt(out, "drop ", site, tid),
        Command::Halt { actor, cut } => put_counts(out, "halt ", u64::from(actor), cut),
        Command::Trip { actor, calls, cut } => {
            put_counts(out, "trip ", u64::from(actor), u64::from(calls))?;
            put_count(out, " ", cut)
        }
        Command::Back { actor } => put_count(out, "back ", u64::from(actor)),
        Command::Check { actor } => put_count(out, "check ", u64::from(actor)),
    }
}
