//! Whether the sites and actors that a command names are declared.
ghost use Rattle.std.specs.Prelude.{◌≡◌};
ghost use Rattle.fed_rules.specs.Plans as plans;
ghost use Rattle.audit_rules.specs.Faults as rules;

use fed_rules::{Command, Scenario, SiteLine};
use mdb_base::SiteId;

/// Whether the site is declared.
fn declares(sites: &[SiteLine], site: SiteId) -> bool
    ensures { result ≡ plans.is_declared sites.now site }
{
    for line in sites {
        if line.site == site {
            return true;
        }
    }
    false
}

/// Whether the actor is the coordinator or a declared site.
fn is_actor(sites: &[SiteLine], actor: u8) -> bool
    ensures { result ≡ plans.is_actor sites.now actor }
{
    actor == 0 || declares(sites, SiteId(actor))
}

/// Whether the sites and actors that a command names are declared.
pub fn names_declared(scenario: &Scenario, command: Command) -> bool
    ensures { result ≡ rules.names_declared scenario.now command }
{
    let sites = scenario.sites.as_slice();
    match command {
        Command::Give { site, .. }
        | Command::Take { site, .. }
        | Command::Ask { site, .. }
        | Command::Drop { site, .. } => declares(sites, site),
        Command::Halt { actor, .. }
        | Command::Trip { actor, .. }
        | Command::Back { actor }
        | Command::Check { actor } => is_actor(sites, actor),
        _ => true,
    }
}
