//! The declared sites.
ghost use Rattle.std.specs.Prelude.{◌≡◌, ◌++◌, [], ◌∷◌, IsTrue};
ghost use Rattle.scenario_text.specs.Drafts.{with_site};
ghost use Rattle.scenario_text.specs.Names as names;
ghost use Rattle.scenario_text.specs.Reads.{Gives};
ghost use Rattle.fed_rules.specs.Plans.{is_declared, is_actor};

use crate::bad::BadWhy;
use crate::fault::Fault;
use crate::names::{number_in, site_number};
use fed_rules::{SiteLine, SiteLines};
use mdb_base::SiteId;
use std::alloc::Global;
use std::marker::Model;

/// Site lines in their order, no two of one site.
#[derive(Drop)]
pub struct SiteDraft {
    lines: Vec<SiteLine>,
}

impl Model for SiteDraft {
    ghost use Rattle.std.specs.Prelude.{List};
    ghost use Rattle.fed_rules.specs.declared.scenario.SiteLine.{SiteLine};

    ghost Value = { List SiteLine };

    ghost view = { λ d. d.lines.items };
}

impl SiteDraft {
    /// No site.
    pub fn new(alloc: Global) -> Self
        ensures { result ≡ [] }
    {
        SiteDraft {
            lines: Vec::new(alloc),
        }
    }

    /// Whether the site is declared. There are at most 8 lines.
    pub fn declares(&self, site: SiteId) -> bool
        ensures { result ≡ is_declared self.now site }
    {
        declares(&self.lines, site)
    }

    /// Adds a site, unless it stands there.
    #[tactic(auto, unfolding(crate::specs::Drafts::with_site))]
    pub fn add(&mut self, line: SiteLine) -> Result<(), Fault>
        ensures { Gives (λ _. self.new) result (with_site line self.old) }
    {
        if declares(&self.lines, line.site) {
            return Err(Fault::Bad(BadWhy::Repeated));
        }
        self.lines.push(line)?;
        Ok(())
    }

    /// The word as a declared site.
    #[tactic(auto, unfolding(crate::specs::Names::site_of))]
    pub fn site_of(&self, word: &[u8]) -> Result<SiteId, BadWhy>
        ensures { result ≡ names.site_of self.now word.now }
    {
        let site = site_number(word)?;
        if self.declares(site) {
            Ok(site)
        } else {
            Err(BadWhy::Site)
        }
    }

    /// The word as an actor: 0 for the coordinator, or a declared site.
    #[tactic(auto, unfolding(crate::specs::Names::actor_of))]
    pub fn actor_of(&self, word: &[u8]) -> Result<u8, BadWhy>
        ensures { result ≡ names.actor_of self.now word.now }
    {
        let actor = number_in(0, 8, word)? as u8;
        if actor == 0 || self.declares(SiteId(actor)) {
            Ok(actor)
        } else {
            Err(BadWhy::Site)
        }
    }

    /// The lines, without memory.
    pub fn into_lines(self) -> SiteLines
        ensures { result ≡ self }
    {
        let SiteDraft { lines } = self;
        SiteLines::of(lines)
    }
}

/// Whether the sites from 1 up to this one stand in their order, as far as its own line tells.
#[tactic(auto, using(std::proofs::lemmas::List::Folds::list_any_at))]
fn is_in_order(lines: &[SiteLine], site: SiteId) -> bool
    ensures { IsTrue result → IsTrue (is_declared lines.now site) }
{
    let number = usize::from(site.0);
    0 < number && number <= lines.len() && lines[number - 1].site.0 == site.0
}

/// Whether a line declares the site.
fn stands_there(lines: &[SiteLine], site: SiteId) -> bool
    ensures { result ≡ is_declared lines.now site }
{
    lines.iter().any(|line| line.site.0 == site.0)
}

/// Whether a line declares the site. Where the sites stand in their order, its line is found at once.
fn declares(lines: &[SiteLine], site: SiteId) -> bool
    ensures { result ≡ is_declared lines.now site }
{
    is_in_order(lines, site) || stands_there(lines, site)
}
