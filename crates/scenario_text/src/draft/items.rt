//! The first rows of the sites.
ghost use Rattle.std.specs.Prelude.{◌≡◌, ◌≤◌, []};
ghost use Rattle.scenario_text.specs.Drafts.{with_item};
ghost use Rattle.scenario_text.specs.Reads.{Gives};

use crate::bad::BadWhy;
use crate::fault::Fault;
use fed_rules::{ItemLine, ItemLines};
use mdb_base::{Key, SiteId};
use std::alloc::Global;
use std::collections::BTreeSet;
use std::marker::Model;

/// The most first rows of a site.
const MOST_ITEMS: u16 = 4_096;

/// Item lines in their order, no two of one row.
#[derive(Drop)]
pub struct ItemDraft {
    lines: Vec<ItemLine>,
    /// The rows of these lines.
    rows: BTreeSet<(SiteId, Key)>,
    /// How many of these lines each site has, by its number.
    counts: [u16; 9],
}

impl Model for ItemDraft {
    ghost use Rattle.std.specs.Prelude.{List};
    ghost use Rattle.fed_rules.specs.declared.scenario.ItemLine.{ItemLine};

    ghost Value = { List ItemLine };

    ghost use Rattle.scenario_text.specs.Seen.{IsItemDraft};

    ghost view = { λ d. d.lines.items };

    ghost invariant = { λ d. IsItemDraft d.lines.items d.rows d.counts };
}

impl ItemDraft {
    /// No row.
    pub fn new(alloc: Global) -> Self
        ensures { result ≡ [] }
    {
        ItemDraft {
            lines: Vec::new(alloc),
            rows: BTreeSet::new(alloc),
            counts: [0; 9],
        }
    }

    /// Adds a row, unless it stands there or its site has as many rows as it may have.
    #[tactic(auto, unfolding(crate::specs::Drafts::with_item))]
    pub fn add(&mut self, line: ItemLine) -> Result<(), Fault>
        requires { line.site.0 ≤ 8 }
        ensures { Gives (λ _. self.new) result (with_item line self.old) }
    {
        let row = (line.site, line.put.key);
        if self.rows.contains(&row) {
            return Err(Fault::Bad(BadWhy::Repeated));
        }
        let count = self.counts[line.site.0 as usize];
        if count >= MOST_ITEMS {
            return Err(Fault::Bad(BadWhy::Many));
        }
        self.lines.reserve(1)?;
        self.rows.insert(row)?;
        self.counts[line.site.0 as usize] = count + 1;
        self.lines.push_reserved(line);
        Ok(())
    }

    /// The lines, without memory.
    pub fn into_lines(self) -> ItemLines
        ensures { result ≡ self }
    {
        let ItemDraft {
            lines,
            rows,
            counts,
        } = self;
        drop(rows);
        let _ = counts;
        ItemLines::of(lines)
    }
}
