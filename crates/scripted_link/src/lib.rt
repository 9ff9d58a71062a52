//! A ring from one thread to another, with a script of what becomes of each packet (this project's profile).
#![tactic(auto)]

mod inlet;
mod laws;
mod outlet;
mod ring;
mod script;
mod steps;
mod wires;

pub use fed_messages::Packet;
pub use inlet::Inlet;
pub use laws::{scripts_see_places_alone, what_is_let_through_was_offered};
pub use outlet::Outlet;
pub use ring::{Ends, channel, meet};
pub use script::{FateAt, LinkScript};
pub use wires::Wires;
