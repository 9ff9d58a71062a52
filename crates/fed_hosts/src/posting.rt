//! What a line of the coordinator sends to all sites.
ghost use Rattle.std.specs.Prelude.{◌≡◌, ◌≤◌, [], OnOk, length, vec_capacity};
ghost use Rattle.fed_hosts.specs.Ports.{ArePosted, AreSamePorts, HaveFewSent, HaveMovedOn, HavePortRoom, places_at};

use crate::ports::Port;
use fed_rules::{Place, Sent};
use mdb_base::Memory;

/// Makes room for one further message to each site. It changes nothing else, also without memory.
pub(crate) fn make_room(ports: &mut Vec<Port>) -> Result<(), Memory>
    ensures room { OnOk result (HavePortRoom ports.new.items) }
    ensures same { AreSamePorts ports.old.items ports.new.items }
{
    for place in 0..ports.len() {
        ports[place].reserve()?;
    }
    Ok(())
}

/// Keeps and offers what a line with this stamp sends to each site, and notes the places by rising site.
pub(crate) fn post_all(ports: &mut Vec<Port>, sends: &[Sent], stamp: u64, places: &mut Vec<Place>)
    requires room { HavePortRoom ports.old.items }
    requires empty { places.old.items ≡ [] }
    requires places { length ports.old.items ≤ vec_capacity places.old }
    requires few { HaveFewSent ports.old.items }
    ensures posted { ArePosted sends.now stamp ports.old.items ports.new.items }
    ensures places { places.new.items ≡ places_at sends.now ports.old.items }
{
    for place in 0..ports.len() {
        ports[place].post(sends, stamp, places);
    }
}

/// Moves what is queued at each outlet on its way.
pub(crate) fn flush_all(ports: &mut Vec<Port>)
    ensures same { AreSamePorts ports.old.items ports.new.items }
    ensures moved_on { HaveMovedOn ports.new.items }
{
    for place in 0..ports.len() {
        ports[place].ends.outlet.flush();
    }
}
