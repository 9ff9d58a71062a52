//! What a world is made of.
ghost use Rattle.std.specs.Prelude.{◌≡◌, ◌<◌, Some, length, slice_get};

use any_engine::AnyEngine;
use conservative_take::AnyPolicy;
use fed_rules::Scenario;
use global_manager::GlobalManager;
use local_dbms::LocalDbms;
use session_report::Marks;

/// The local database systems of the declared sites, by rising site.
#[derive(Drop)]
pub struct SiteCores {
    pub items: Vec<LocalDbms<AnyEngine>>,
}

impl SiteCores {
    /// These, by rising site.
    pub fn of(items: Vec<LocalDbms<AnyEngine>>) -> SiteCores
        ensures { result.items ≡ items }
    {
        SiteCores { items }
    }

    /// How many sites there are.
    pub fn len(&self) -> usize
        ensures { result ≡ length self.now.items.items }
    {
        self.items.len()
    }

    /// The one at this place, counted from 0.
    pub fn at(&self, place: usize) -> &LocalDbms<AnyEngine>
        requires { place < length self.now.items.items }
        ensures { slice_get self.now.items.items place ≡ Some result.now }
    {
        &self.items[place]
    }
}

/// The scenario, the coordinator with the programs of its global transactions, the local database systems by rising site, and for each of
/// them the marks of its records.
#[derive(Drop)]
pub struct Cores {
    pub scenario: Scenario,
    pub coordinator: GlobalManager<AnyPolicy>,
    pub sites: SiteCores,
    pub marks: Vec<Marks>,
}
