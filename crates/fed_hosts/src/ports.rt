//! The coordinator's ends of the rings to and from one site.
ghost use Rattle.std.specs.Prelude.{◌≡◌, ◌+◌, ◌^◌, ◌<◌, ◌≤◌, OnOk, length, vec_len, vec_capacity};
ghost use Rattle.fed_hosts.specs.Ports.{HasPortRoom, IsPosted, IsSamePort, place_at, places_behind};

use crate::ends::HostEnds;
use fed_messages::{Envelope, encode_to};
use fed_rules::{Place, Sent, ToSite};
use mdb_base::Memory;
use session_routes::message_to;

/// The coordinator's ends of the rings to and from one site, and the messages that it sent there.
#[derive(Drop)]
pub struct Port {
    pub ends: HostEnds,
    pub to: Vec<ToSite>,
}

impl Port {
    /// Makes room for one message. It changes nothing else, also without memory.
    pub(crate) fn reserve(&mut self) -> Result<(), Memory>
        ensures room { OnOk result (HasPortRoom self.new) }
        ensures same { IsSamePort self.old self.new }
    {
        self.to.try_reserve(1)?;
        self.ends.outlet.reserve()
    }

    /// Keeps and offers what a line with this stamp sends to the site, and notes its place.
    pub(crate) fn post(&mut self, sends: &[Sent], stamp: u64, places: &mut Vec<Place>)
        requires room { HasPortRoom self.old }
        requires places { vec_len places.old < vec_capacity places.old }
        requires few { length self.old.to.items < 2 ^ 32 }
        ensures posted { IsPosted sends.now stamp self.old self.new }
        ensures places { places.new.items ≡ places_behind places.old.items (place_at sends.now self.old) }
        ensures grown { vec_len places.new ≤ vec_len places.old + 1 }
        ensures capacity { vec_capacity places.new ≡ vec_capacity places.old }
    {
        let Some(message) = message_to(sends, self.ends.site) else {
            return;
        };
        let place = self.to.len() as u32;
        places.push_reserved(Place {
            site: self.ends.site,
            place,
        });
        let packet = encode_to(&Envelope {
            index: place,
            stamp,
            message,
        });
        self.ends.outlet.offer(packet);
        self.to.push_reserved(message);
    }
}
