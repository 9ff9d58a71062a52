//! The world of a session: up to eight sites, the coordinator, and the messages between them. It carries out commands one after another, and
//! keeps their lines. It routes, numbers places and keeps lines; it decides nothing.
#![tactic(auto)]

mod asked;
mod asks;
mod cores;
mod errors;
mod found_reporting;
mod gathering;
mod hearing;
mod reading;
mod reporting;
mod seats;
mod setting_up;
mod world;

pub use cores::{Cores, SiteCores};
pub use errors::WorldErr;
pub use gathering::Channels;
pub use session_report::{Channel, Mark, Marks};
pub use setting_up::declared_sites;
pub use world::World;
