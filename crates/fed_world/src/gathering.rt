//! How a world is taken apart, and made of its parts again.
ghost use Rattle.std.specs.Prelude.{◌≡◌, Bool, List, IfOk};
ghost use Rattle.journal_disk.specs.Disk.{Seen};
ghost use Rattle.fed_rules.specs.Sessions.{fresh};
ghost use Rattle.fed_world.specs.Gathering.{AreTraffic, Gathers, GathersOn, IsTraffic};
ghost use Rattle.fed_world.specs.Worlds.{AnyStory, EachStory, Recalls, SomeStory, Stands};

use crate::cores::Cores;
use crate::setting_up::routes_of;
use crate::world::World;
use fed_rules::Lines;
use mdb_base::{ListOf, Memory};
use session_report::Channel;
use session_routes::Traffic;
use std::alloc::Global;

/// For each declared site, by rising site, the messages to and from it.
pub type Channels = ListOf<Channel>;

/// The messages of a channel.
fn traffic_in(channel: Channel) -> Traffic
    ensures { IsTraffic channel result }
{
    let Channel { site, to, from } = channel;
    Traffic {
        site,
        to: to.into_items(),
        from: from.into_items(),
    }
}

/// The messages of each channel.
#[tactic(none)]
fn traffic_of(alloc: Global, channels: Channels) -> Result<Vec<Traffic>, Memory>
    ensures { IfOk result (λ all. AreTraffic channels all.items) }
{
    let mut traffic = Vec::with_capacity(alloc, channels.len())?;
    for channel in channels.into_items() {
        traffic.push(traffic_in(channel))?;
    }
    Ok(traffic)
}

impl World {
    /// The actors, with the scenario.
    pub fn into_cores(self) -> Cores
        ensures { result ≡ self.cores }
    {
        let World {
            cores,
            routes: _,
            traffic: _,
            lines: _,
            broken: _,
            begun: _,
            places: _,
        } = self;
        cores
    }

    /// The world of these actors, whose lines and messages these are: what they stand for behind the commands of the lines, it stands for. Its
    /// lines are those given.
    #[tactic(none)]
    pub fn gather(
        alloc: Global,
        cores: Cores,
        lines: Lines,
        channels: Channels,
    ) -> Result<World, Memory>
        requires { SomeStory (Gathers cores lines channels) AnyStory }
        ensures recalls { IfOk result (λ world. EachStory (Gathers cores lines channels) (λ scenario. Recalls world (fresh scenario))) }
        ensures lines { IfOk result (λ world. world.lines.items ≡ lines) }
        ensures stands { IfOk result (λ world. (tells : Bool) (disks : List Seen) → EachStory (GathersOn tells disks cores lines channels) (λ scenario. Stands tells world disks (fresh scenario))) }
    {
        let Ok(routes) = routes_of(alloc, &cores.scenario) else {
            drop(cores);
            return Err(Memory);
        };
        let Ok(traffic) = traffic_of(alloc, channels) else {
            drop(cores);
            return Err(Memory);
        };
        Ok(World {
            cores,
            routes,
            traffic,
            lines: lines.into_items(),
            broken: false,
            begun: None,
            places: Vec::new(alloc),
        })
    }
}
