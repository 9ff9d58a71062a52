//! What is asked of a world.
ghost use Rattle.std.specs.Prelude.{◌≡◌, MatchOption, None};
ghost use Rattle.std.specs.Option.{option_copied};
ghost use Rattle.fed_rules.specs.Right.{AreLines};
ghost use Rattle.fed_rules.specs.Scenarios.{global_program, home_of};
ghost use Rattle.fed_rules.specs.Sessions.{fresh};
ghost use Rattle.fed_rules.specs.Story.{coord_past, sent_from, sent_to, story_in};
ghost use Rattle.fed_world.specs.Asks.{terms_of};
ghost use Rattle.fed_world.specs.Beginnings.{scenario_of};
ghost use Rattle.fed_world.specs.Lines.{AreLinesIn};
ghost use Rattle.fed_world.specs.Messages.{AreMessages};
ghost use Rattle.fed_world.specs.Worlds.{ActorsRecall, EachStory, HasLines, IsLocalAt, ManagerRecalls, Recalls, lines_of};

use crate::cores::Cores;
use crate::world::World;
use any_engine::AnyEngine;
use conservative_take::AnyPolicy;
use fed_rules::{FromSite, Line, Scenario, ToSite};
use global_manager::GlobalManager;
use local_dbms::LocalDbms;
use mdb_base::SiteId;
use session_routes::Traffic;

impl World {
    /// Whether a disk call failed.
    pub fn is_broken(&self) -> bool
        ensures { result ≡ self.now.broken }
    {
        self.broken
    }

    /// The lines, the first one first: they are right, and of the commands.
    pub fn lines(&self) -> &[Line]
        ensures lines { result.now ≡ lines_of self.now }
        ensures right { EachStory (HasLines self.now) (AreLinesIn result.now) }
        ensures fresh { EachStory (λ scenario. HasLines self.now (fresh scenario)) (AreLines result.now) }
    {
        self.lines.as_slice()
    }

    /// The scenario: where the session goes on from disks, without first rows and transactions.
    pub fn scenario(&self) -> &Scenario
        ensures { EachStory (HasLines self.now) (λ session commands. result.now ≡ scenario_of session) }
    {
        &self.cores.scenario
    }

    /// The actors, with the scenario.
    pub fn cores(&self) -> &Cores
        ensures { EachStory (Recalls self.now) (λ session commands. ActorsRecall result.now session (story_in session commands)) }
    {
        &self.cores
    }

    /// The coordinator.
    pub fn coordinator(&self) -> &GlobalManager<AnyPolicy>
        ensures { EachStory (Recalls self.now) (λ session commands. ManagerRecalls result.now (terms_of session.plan) (global_program session.plan) (coord_past (story_in session commands))) }
    {
        &self.cores.coordinator
    }

    /// The local database system of a declared site.
    pub fn site(&self, site: SiteId) -> Option<&LocalDbms<AnyEngine>>
        ensures { EachStory (Recalls self.now) (λ session commands. MatchOption (option_copied result) (home_of session.plan site ≡ None) (λ dbms. IsLocalAt dbms session site (story_in session commands))) }
    {
        match self.routes.place_of(site) {
            Some(place) => self.cores.sites.items.get(place),
            None => None,
        }
    }

    /// The messages to and from a declared site.
    fn traffic_at(&self, site: SiteId) -> Option<&Traffic>
        ensures { EachStory (Recalls self.now) (λ session commands. MatchOption (option_copied result) (home_of session.plan site ≡ None) (λ traffic. AreMessages traffic site (story_in session commands))) }
    {
        match self.routes.place_of(site) {
            Some(place) => self.traffic.get(place),
            None => None,
        }
    }

    /// The messages sent to a site, in the order of sending.
    pub fn sent_to(&self, site: SiteId) -> &[ToSite]
        ensures { EachStory (Recalls self.now) (λ session commands. result.now ≡ sent_to site (story_in session commands)) }
    {
        match self.traffic_at(site) {
            Some(traffic) => traffic.to.as_slice(),
            None => &[],
        }
    }

    /// The messages sent from a site, in the order of sending.
    pub fn sent_from(&self, site: SiteId) -> &[FromSite]
        ensures { EachStory (Recalls self.now) (λ session commands. result.now ≡ sent_from site (story_in session commands)) }
    {
        match self.traffic_at(site) {
            Some(traffic) => traffic.from.as_slice(),
            None => &[],
        }
    }
}
