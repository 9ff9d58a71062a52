//! What the lines of a session tell of its attempts, in one pass over them.
ghost use Rattle.std.specs.Prelude.{◌≡◌, IfOk, OnOk, reverse};
ghost use Rattle.std.specs.BTreeMap.{is_at};
ghost use Rattle.std.specs.Map.{lookup};
ghost use Rattle.mdb_base.specs.Words.{item_at};
ghost use Rattle.session_report.specs.Told.{after_begin, after_line, after_step, is_counted, message_at, reads_told, tids_told, told_by, untold, with_go, with_taken};
ghost use Rattle.mdb_base.specs.Names.{tx_cmp};

use crate::reads::{begun, note_begun, note_value, values_of};
use fed_rules::{Answer, Command, FromSite, Line, TxReads};
use mdb_base::{Memory, Reply, SiteId, Tid, Tx, Values};
use session_routes::Traffic;
use std::alloc::Global;
use std::collections::BTreeMap;
use std::marker::Model;

/// The global attempts that were begun and the local ones, each with the values that it read, and of each local transaction the attempt
/// that was begun last.
#[derive(Drop)]
pub(crate) struct Telling {
    pub(crate) globals: BTreeMap<Tid, Vec<u64>>,
    pub(crate) locals: BTreeMap<Tid, Vec<u64>>,
    running: BTreeMap<Tx, Tid>,
}

impl Model for Telling {
    ghost use Rattle.session_report.specs.Entries.{entries_of};
    ghost use Rattle.session_report.specs.Told.{Told};

    ghost Value = { Told };

    ghost view = { λ t. record { globals = entries_of t.globals; locals = entries_of t.locals; running = t.running.entries } };
}

impl Telling {
    /// What these lines tell, the first line first, with the messages that the sites sent.
    pub(crate) fn of(alloc: Global, channels: &[Traffic], lines: &[Line]) -> Result<Telling, Memory>
        ensures { IfOk result (λ telling. telling ≡ told_by channels.now (reverse lines.now)) }
    {
        let mut telling = Telling {
            globals: BTreeMap::new(alloc),
            locals: BTreeMap::new(alloc),
            running: BTreeMap::new(alloc),
        };
        for line in lines {
            telling.hear(alloc, channels, line)?;
        }
        Ok(telling)
    }

    /// The global attempts that were begun, by rising transaction and attempt.
    pub(crate) fn begun(&self, alloc: Global) -> Result<Vec<Tid>, Memory>
        ensures { IfOk result (λ tids. tids.items ≡ tids_told self.now) }
    {
        let tids = begun(alloc, &self.globals)?;
        Ok(tids)
    }

    /// The values that an attempt read, global or local; none of one that the lines don't name.
    pub(crate) fn reads_of(&self, alloc: Global, tid: Tid) -> Result<TxReads, Memory>
        ensures { IfOk result (λ reads. reads ≡ reads_told self.now tid) }
    {
        let values = match values_of(&self.globals, tid) {
            Some(values) => values.to_vec(alloc)?,
            None => match values_of(&self.locals, tid) {
                Some(values) => values.to_vec(alloc)?,
                None => Vec::new(alloc),
            },
        };
        Ok(TxReads {
            tid,
            values: Values::of(values),
        })
    }

    /// One line more.
    fn hear(&mut self, alloc: Global, channels: &[Traffic], line: &Line) -> Result<(), Memory>
        ensures { OnOk result (self.new ≡ after_line channels.now line.now self.old) }
    {
        match line.command {
            Command::Begin(tx) => self.hear_begin(alloc, tx, &line.answer),
            Command::Step(tx) => self.hear_step(tx, &line.answer),
            Command::Go(_) => self.hear_go(alloc, &line.answer),
            Command::Take { site, place } => { self.hear_take(channels, site, place, &line.answer) }
            _ => Ok(()),
        }
    }

    /// A local attempt begins, where the answer says so.
    fn hear_begin(&mut self, alloc: Global, tx: Tx, answer: &Answer) -> Result<(), Memory>
        ensures { OnOk result (self.new ≡ after_begin tx answer.now self.old) }
    {
        if let Answer::Begun(tid) = answer {
            note_begun(alloc, &mut self.locals, *tid)?;
            self.running.insert(tx, *tid)?;
        }
        Ok(())
    }

    /// The running attempt of a local transaction reads a value, where the answer says so.
    fn hear_step(&mut self, tx: Tx, answer: &Answer) -> Result<(), Memory>
        ensures { OnOk result (self.new ≡ after_step tx answer.now self.old) }
    {
        if let Answer::Read(_, value) = answer {
            if let Some(tid) = self.running_of(tx) {
                note_value(&mut self.locals, tid, *value)?;
            }
        }
        Ok(())
    }

    /// The attempt of a local transaction that was begun last.
    fn running_of(&self, tx: Tx) -> Option<Tid>
        ensures { result ≡ lookup (is_at (tx_cmp tx)) self.now.running }
    {
        self.running.get(&tx).copied()
    }

    /// A global attempt begins, where the answer says so.
    fn hear_go(&mut self, alloc: Global, answer: &Answer) -> Result<(), Memory>
        ensures { OnOk result (self.new ≡ record self.old { globals = with_go answer.now self.old.globals }) }
    {
        if let Answer::Begun(tid) = answer {
            note_begun(alloc, &mut self.globals, *tid)?;
        }
        Ok(())
    }

    /// The message at this place is taken: where it counts, and is a reply with a value, the value is noted. Only where it counts is it
    /// looked up.
    fn hear_take(
        &mut self,
        channels: &[Traffic],
        site: SiteId,
        place: u32,
        answer: &Answer,
    ) -> Result<(), Memory>
        ensures { OnOk result (self.new ≡ record self.old { globals = with_taken (message_at channels.now site place) answer.now self.old.globals }) }
    {
        if is_counted(answer) {
            if let Some(
                FromSite::Did {
                    tid,
                    reply: Reply::Value(value),
                    ..
                },
            ) = message_at(channels, site, place)
            {
                note_value(&mut self.globals, tid, value)?;
            }
        }
        Ok(())
    }
}

/// Whether a line that takes a message counts it.
fn is_counted(answer: &Answer) -> bool
    ensures { result ≡ is_counted answer.now }
{
    !matches!(
        answer,
        Answer::None | Answer::Ignored | Answer::Down | Answer::Stopped(_)
    )
}

/// The message at this place of those that the site sent.
fn message_at(channels: &[Traffic], site: SiteId, place: u32) -> Option<FromSite>
    ensures { result ≡ message_at channels.now site place }
{
    for channel in channels {
        if channel.site == site {
            return message_in(channel.from.as_slice(), place);
        }
    }
    None
}

/// The message at this place.
fn message_in(messages: &[FromSite], place: u32) -> Option<FromSite>
    ensures { result ≡ item_at messages.now place }
{
    let place = place as usize;
    if place < messages.len() {
        Some(messages[place])
    } else {
        None
    }
}
