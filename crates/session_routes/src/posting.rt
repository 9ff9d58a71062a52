//! How what the coordinator sends in a line is put into the channels.
ghost use Rattle.std.specs.Prelude.{◌≡◌, ◌<◌, ◌^◌, ◌+◌, ◌≤◌, ℕ, [], OnOk, Some, length, slice_get, vec_len, vec_capacity};
ghost use Rattle.session_routes.specs.declared.traffic.Traffic.{Traffic as TheTraffic};
ghost use Rattle.session_routes.specs.Posting.{ArePosted, AreSameTraffic, HasRoomAt, IsPosted, message_to, place_to, places_behind, places_to};

use crate::traffic::Traffic;
use fed_rules::{Place, Sent, ToSite};
use mdb_base::{Memory, SiteId};

/// The message to the site among these.
pub fn message_to(sends: &[Sent], site: SiteId) -> Option<ToSite>
    ensures { result ≡ message_to site sends.now }
{
    for sent in sends {
        if sent.site.0 == site.0 {
            return Some(sent.message);
        }
    }
    None
}

/// Makes room for one further message to each site. The messages stay.
pub fn make_room(traffic: &mut Vec<Traffic>) -> Result<(), Memory>
    ensures room { OnOk result (HasRoomAt traffic.new.items) }
    ensures same { AreSameTraffic traffic.old.items traffic.new.items }
{
    for place in 0..traffic.len() {
        traffic[place].to.reserve(1)?;
    }
    Ok(())
}

/// Puts what is sent to one site behind what was sent to it, and notes its place.
fn post_one(traffic: &mut Traffic, sends: &[Sent], places: &mut Vec<Place>)
    requires room { vec_len traffic.old.to < vec_capacity traffic.old.to }
    requires places { vec_len places.old < vec_capacity places.old }
    requires few { length traffic.old.to.items < 2 ^ 32 }
    ensures posted { IsPosted sends.now traffic.old traffic.new }
    ensures places { places.new.items ≡ places_behind places.old.items (place_to sends.now traffic.old) }
    ensures grown { vec_len places.new ≤ vec_len places.old + 1 }
    ensures capacity { vec_capacity places.new ≡ vec_capacity places.old }
{
    if let Some(message) = message_to(sends, traffic.site) {
        places.push_reserved(Place {
            site: traffic.site,
            place: traffic.to.len() as u32,
        });
        traffic.to.push_reserved(message);
    }
}

/// Puts what is sent into the channels, and notes the places by rising site.
pub fn post(traffic: &mut Vec<Traffic>, sends: &[Sent], places: &mut Vec<Place>)
    requires room { HasRoomAt traffic.old.items }
    requires empty { places.old.items ≡ [] }
    requires places { length traffic.old.items ≤ vec_capacity places.old }
    requires few { (place : ℕ) (one : TheTraffic) → slice_get traffic.old.items place ≡ Some one → length one.to.items < 2 ^ 32 }
    ensures posted { ArePosted sends.now traffic.old.items traffic.new.items }
    ensures places { places.new.items ≡ places_to sends.now traffic.old.items }
{
    for place in 0..traffic.len() {
        post_one(&mut traffic[place], sends, places);
    }
}
