//! Who hears of a command.
ghost use Rattle.std.specs.Prelude.{◌≡◌};
ghost use Rattle.mdb_base.specs.Words.{item_at};
ghost use Rattle.fed_rules.specs.Story.{sent_from, sent_to, story_in};
ghost use Rattle.fed_world.specs.Asks.{IsAsked};
ghost use Rattle.fed_world.specs.Hearers.{to_actor, to_fate, to_give, to_local, to_site, to_take};
ghost use Rattle.fed_world.specs.Worlds.{EachStory, Recalls};

use crate::asks::Asked;
use crate::world::World;
use fed_rules::Command;
use global_manager::CoordAsk;
use local_dbms::SiteAsk;
use mdb_base::{SiteId, Tx};

impl World {
    /// A declared site is asked this.
    fn of_site(&self, site: SiteId, ask: SiteAsk) -> Asked
        ensures { EachStory (Recalls self.now) (λ session commands. result ≡ to_site session.plan site ask) }
    {
        match self.routes.place_of(site) {
            Some(place) => Asked::Site { place, ask },
            None => Asked::Nobody,
        }
    }

    /// The site of a local transaction is asked this.
    fn of_local(&self, tx: Tx, ask: SiteAsk) -> Asked
        ensures { EachStory (Recalls self.now) (λ session commands. result ≡ to_local session.plan tx ask) }
    {
        match self.routes.home_of(tx) {
            Some(site) => self.of_site(site, ask),
            None => Asked::Nobody,
        }
    }

    /// The site of a local transaction is asked how it ended, and of another one the coordinator.
    fn of_fate(&self, tx: Tx) -> Asked
        ensures { EachStory (Recalls self.now) (λ session commands. result ≡ to_fate session.plan tx) }
    {
        match self.routes.home_of(tx) {
            Some(site) => self.of_site(site, SiteAsk::Fate(tx)),
            None => Asked::Coordinator(CoordAsk::Fate(tx)),
        }
    }

    /// The site takes the message at this place of the channel to it.
    fn of_give(&self, site: SiteId, place: u32) -> Asked
        ensures { EachStory (Recalls self.now) (λ session commands. result ≡ to_give session.plan site (item_at (sent_to site (story_in session commands)) place)) }
    {
        match self.sent_to(site).get(place as usize) {
            Some(message) => self.of_site(site, SiteAsk::Give(*message)),
            None => Asked::Nobody,
        }
    }

    /// The coordinator takes the message at this place of the channel from the site.
    fn of_take(&self, site: SiteId, place: u32) -> Asked
        ensures { EachStory (Recalls self.now) (λ session commands. result ≡ to_take site (item_at (sent_from site (story_in session commands)) place)) }
    {
        match self.sent_from(site).get(place as usize) {
            Some(message) => Asked::Coordinator(CoordAsk::Take {
                site,
                message: *message,
            }),
            None => Asked::Nobody,
        }
    }

    /// An actor is asked this: 0 is the coordinator.
    fn of_actor(&self, actor: u8, coordinator: CoordAsk, site: SiteAsk) -> Asked
        ensures { EachStory (Recalls self.now) (λ session commands. result ≡ to_actor session.plan actor coordinator site) }
    {
        if actor == 0 {
            Asked::Coordinator(coordinator)
        } else {
            self.of_site(SiteId(actor), site)
        }
    }

    /// Who hears of a command, and what it asks.
    pub(crate) fn asked(&self, command: &Command) -> Asked
        ensures { EachStory (Recalls self.now) (λ session commands. IsAsked result command.now session (story_in session commands)) }
    {
        match *command {
            Command::Begin(tx) => self.of_local(tx, SiteAsk::Begin(tx)),
            Command::Step(tx) => self.of_local(tx, SiteAsk::Step(tx)),
            Command::Commit(tx) => self.of_local(tx, SiteAsk::Commit(tx)),
            Command::Abort(tx) => self.of_local(tx, SiteAsk::Abort(tx)),
            Command::Fate(tx) => self.of_fate(tx),
            Command::Go(tx) => Asked::Coordinator(CoordAsk::Go(tx)),
            Command::Again(tid) => Asked::Coordinator(CoordAsk::Again(tid)),
            Command::Late(tid) => Asked::Coordinator(CoordAsk::Late(tid)),
            Command::Give { site, place } => self.of_give(site, place),
            Command::Take { site, place } => self.of_take(site, place),
            Command::Ask { site, tid } => self.of_site(site, SiteAsk::Ask(tid)),
            Command::Drop { site, tid } => self.of_site(site, SiteAsk::Drop(tid)),
            Command::Halt { actor, cut } => {
                self.of_actor(actor, CoordAsk::Halt { cut }, SiteAsk::Halt { cut })
            }
            Command::Trip { actor, calls, cut } => self.of_actor(
                actor,
                CoordAsk::Trip { calls, cut },
                SiteAsk::Trip { calls, cut },
            ),
            Command::Back { actor } => self.of_actor(actor, CoordAsk::Back, SiteAsk::Back),
            Command::Check { actor } => self.of_actor(actor, CoordAsk::Check, SiteAsk::Check),
        }
    }
}
