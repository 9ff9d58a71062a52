//! The fates of messages.
ghost use Rattle.std.specs.Prelude.{◌≡◌, []};
ghost use Rattle.mdb_base.specs.Words.{some_of};
ghost use Rattle.fed_rules.specs.Plans.{one_message};
ghost use Rattle.scenario_text.specs.Drafts.{with_link};
ghost use Rattle.scenario_text.specs.Reads.{Gives};

use crate::bad::BadWhy;
use crate::fault::Fault;
use fed_rules::{LinkLine, LinkLines};
use mdb_base::SiteId;
use std::alloc::Global;
use std::collections::BTreeSet;
use std::marker::Model;

/// The most link lines.
const MOST_LINKS: usize = 4_096;

/// Link lines in their order, no two of one message.
#[derive(Drop)]
pub struct LinkDraft {
    lines: Vec<LinkLine>,
    /// The messages to sites of these lines, by site and place.
    to: BTreeSet<(SiteId, u32)>,
    /// The messages from sites of these lines, by site and place.
    from: BTreeSet<(SiteId, u32)>,
}

impl Model for LinkDraft {
    ghost use Rattle.std.specs.Prelude.{List};
    ghost use Rattle.fed_rules.specs.declared.scenario.LinkLine.{LinkLine};

    ghost Value = { List LinkLine };

    ghost use Rattle.scenario_text.specs.Seen.{IsLinkDraft};

    ghost view = { λ d. d.lines.items };

    ghost invariant = { λ d. IsLinkDraft d.lines.items d.to d.from };
}

impl LinkDraft {
    /// No link line.
    pub fn new(alloc: Global) -> Self
        ensures { result ≡ [] }
    {
        LinkDraft {
            lines: Vec::new(alloc),
            to: BTreeSet::new(alloc),
            from: BTreeSet::new(alloc),
        }
    }

    /// Whether a line of the same message stands there.
    fn has(&self, line: LinkLine) -> bool
        ensures { result ≡ some_of (one_message line) self.now }
    {
        let place = (line.site, line.place);
        if line.to {
            self.to.contains(&place)
        } else {
            self.from.contains(&place)
        }
    }

    /// Adds a message's fate, unless it stands there or there are as many link lines as there may be.
    #[tactic(auto, unfolding(crate::specs::Drafts::with_link))]
    pub fn add(&mut self, line: LinkLine) -> Result<(), Fault>
        ensures { Gives (λ _. self.new) result (with_link line self.old) }
    {
        if self.has(line) {
            return Err(Fault::Bad(BadWhy::Repeated));
        }
        if self.lines.len() >= MOST_LINKS {
            return Err(Fault::Bad(BadWhy::Many));
        }
        self.lines.reserve(1)?;
        let place = (line.site, line.place);
        if line.to {
            self.to.insert(place)?;
        } else {
            self.from.insert(place)?;
        }
        self.lines.push_reserved(line);
        Ok(())
    }

    /// The lines, without memory.
    pub fn into_lines(self) -> LinkLines
        ensures { result ≡ self }
    {
        let LinkDraft { lines, to, from } = self;
        drop(to);
        drop(from);
        LinkLines::of(lines)
    }
}
