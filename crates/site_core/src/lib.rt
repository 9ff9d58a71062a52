//! The core of one site: it answers each event from its own engine, its own journal and its own disk.
//!
//! A core stands for a home and a list of what happened there. Each step answers as the rules say of that list, and the core then stands
//! for the list with that line added; a stop may come right after any disk call. It is generic in the engine and in the disk, and rests on
//! their contracts alone.
#![tactic(auto)]

mod answers;
mod arming;
mod checking;
mod commits;
mod decisions;
mod inquiry;
mod laws;
mod listing;
mod locals;
mod messages;
mod operations;
mod site;
mod starting;
mod stops;
mod store;
mod votes;

pub use actor_store::StepErr;
pub use fed_rules::{SiteEvent, SiteRecord, SiteStep};
pub use laws::made_pasts_are_serial;
pub use site::SiteCore;
