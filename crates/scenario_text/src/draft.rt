//! What the lines of a text have said so far.
ghost use Rattle.std.specs.Prelude.{◌≡◌, IsNone, IsSome, IsOk, MatchResult};
ghost use Rattle.std.specs.List.{list_all};
ghost use Rattle.scenario_text.specs.Drafts.{no_draft, with_entry, with_setting};
ghost use Rattle.scenario_text.specs.Kept.{IsEntry};
ghost use Rattle.scenario_text.specs.Pieces.{words_of};
ghost use Rattle.scenario_text.specs.Reads.{Gives};
ghost use Rattle.scenario_text.specs.Texts as texts;

mod commands;
mod items;
mod links;
mod sites;
mod stops;
mod transactions;

use crate::bad::BadWhy;
use crate::command_lines::command_line;
use crate::entry::Entry;
use crate::fault::Fault;
use crate::pieces::{first_word, one_piece};
use crate::scenario_lines::scenario_line;
pub use commands::CommandDraft;
pub use items::ItemDraft;
pub use links::LinkDraft;
pub use sites::SiteDraft;
use std::alloc::Global;
pub use stops::StopDraft;
pub use transactions::TxDraft;

/// The most bytes of a line, without its line feed.
const MOST_BYTES: usize = 2_048;

/// What the lines so far have said. Each list stands in the order of its lines.
#[derive(Drop)]
pub struct Draft {
    pub sites: SiteDraft,
    pub items: ItemDraft,
    pub transactions: TxDraft,
    pub clients: Option<u8>,
    pub turns: Option<u32>,
    pub tries: Option<u8>,
    /// Whether tickets are taken by the conservative method, where a line says it.
    pub conservative: Option<bool>,
    pub links: LinkDraft,
    pub stops: StopDraft,
    /// Whether the line `commands` was read.
    pub in_commands: bool,
    pub commands: CommandDraft,
}

impl Draft {
    /// Nothing was said yet.
    pub fn new(alloc: Global) -> Draft
        ensures { result ≡ no_draft }
    {
        Draft {
            sites: SiteDraft::new(alloc),
            items: ItemDraft::new(alloc),
            transactions: TxDraft::new(alloc),
            clients: None,
            turns: None,
            tries: None,
            conservative: None,
            links: LinkDraft::new(alloc),
            stops: StopDraft::new(alloc),
            in_commands: false,
            commands: CommandDraft::new(alloc),
        }
    }

    /// Takes the next line of a text, `ended` being whether a line feed ends it. `with_commands` says whether the line `commands`
    /// may stand. A draft that refused a line is of no further use.
    #[tactic(auto, using(crate::proofs::DraftLemmas::entry_fits), unfolding(crate::specs::Texts::with_line))]
    pub fn take_line(
        &mut self,
        alloc: Global,
        with_commands: bool,
        line: &[u8],
        ended: bool,
    ) -> Result<(), Fault>
        ensures { Gives (λ _. self.new) result
            (texts.with_line with_commands (record { bytes = line.now; ended = ended }) self.old) }
    {
        check_whole(line, ended)?;
        let entry = self.entry_of(alloc, with_commands, line)?;
        self.add(alloc, entry)
    }

    /// What a line says by its words: behind `commands` a command, before it a line of a scenario, or `commands` where that may
    /// stand.
    #[tactic(auto, unfolding(crate::specs::Texts::entry_of))]
    fn entry_of(&self, alloc: Global, with_commands: bool, line: &[u8]) -> Result<Entry, Fault>
        ensures { Gives (λ e. e) result (texts.entry_of with_commands self.now (words_of line.now)) }
    {
        if self.in_commands {
            let command = command_line(&self.sites, line)?;
            return Ok(Entry::Command(command));
        }
        if with_commands && first_word(line) == b"commands".as_slice() {
            one_piece(line, b' ').ok_or(BadWhy::Count)?;
            return Ok(Entry::Commands);
        }
        scenario_line(alloc, &self.sites, line)
    }

    /// Adds what a line says, unless it clashes with the lines before it, or a limit is passed.
    #[tactic(auto, unfolding(crate::specs::Drafts::with_entry, crate::specs::Drafts::with_setting))]
    fn add(&mut self, alloc: Global, entry: Entry) -> Result<(), Fault>
        requires { IsEntry self.old.sites entry }
        ensures { Gives (λ _. self.new) result (with_entry entry self.old) }
    {
        match entry {
            Entry::Site(line) => self.sites.add(line),
            Entry::Item(line) => self.items.add(line),
            Entry::Transaction { tx, home, steps } => self
                .transactions
                .add(alloc, tx, home, &steps),
            Entry::Clients(clients) => set_once(&mut self.clients, clients),
            Entry::Turns(turns) => set_once(&mut self.turns, turns),
            Entry::Tries(tries) => set_once(&mut self.tries, tries),
            Entry::Policy(conservative) => set_once(&mut self.conservative, conservative),
            Entry::Link(line) => self.links.add(line),
            Entry::Stop(line) => self.stops.add(line),
            Entry::Commands => {
                self.in_commands = true;
                Ok(())
            }
            Entry::Command(command) => self.commands.add(command),
        }
    }
}

/// Sets a setting that isn't set.
fn set_once<T: Copy>(setting: &mut Option<T>, value: T) -> Result<(), Fault>
    ensures first { IsNone setting.old → IsOk result × (setting.new ≡ Some value) }
    ensures again { IsSome setting.old → result ≡ Err (Fault.Bad BadWhy.Repeated) }
{
    if setting.is_some() {
        return Err(Fault::Bad(BadWhy::Repeated));
    }
    *setting = Some(value);
    Ok(())
}

/// Whether the line isn't too long, has its line feed, and has visible bytes alone.
#[tactic(auto, unfolding(crate::specs::Texts::whole_line))]
fn check_whole(line: &[u8], ended: bool) -> Result<(), BadWhy>
    ensures { MatchResult result (λ _. texts.whole_line (record { bytes = line.now; ended = ended }) ≡ Ok line.now)
        (λ why. texts.whole_line (record { bytes = line.now; ended = ended }) ≡ Err why) }
{
    if line.len() > MOST_BYTES {
        Err(BadWhy::Long)
    } else if !ended {
        Err(BadWhy::Ending)
    } else if are_visible(line) {
        Ok(())
    } else {
        Err(BadWhy::Bytes)
    }
}

/// Whether each byte is a visible character of ASCII or a space.
fn are_visible(line: &[u8]) -> bool
    ensures { result ≡ list_all texts.is_visible line.now }
{
    line.iter().all(|byte| 32 <= *byte && *byte <= 126)
}
