//! The hosts of a threaded run: a site's local database system or the coordinator's front, each with its disk, its stamped lines, the
//! messages that it sent and its ends of the rings, all of which lie behind one lock.
//!
//! What a host's type keeps is all that is known of it behind a lock: its lines, with the packets that it took, replay to what it
//! runs, by the rules of its own past; its stamps rise (Lamport 1978); its scripted stops are armed in their order; and its outlets
//! were offered what its lines sent.
#![tactic(auto)]

mod answers;
mod arming;
mod coord_actor;
mod coord_arming;
mod coord_asks;
mod coord_host;
mod coord_keeping;
mod coord_parts;
mod coord_sends;
mod coord_serving;
mod coord_turns;
mod ends;
mod gates;
mod keeping;
mod parts;
mod plans;
mod ports;
mod posting;
mod rounds;
mod serving;
mod site_actor;
mod site_host;
mod turns;
mod verbs;
mod written;

pub use client_drivers::DoorErr;
pub use coord_host::CoordHost;
pub use coord_parts::CoordParts;
pub use ends::HostEnds;
pub use gates::{Gate, NoGate};
pub use parts::SiteParts;
pub use plans::Plan;
pub use ports::Port;
pub use site_host::SiteHost;
