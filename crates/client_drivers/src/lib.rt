//! How a client carries a transaction through the door of a host (this project's profile).
//!
//! A driver calls the door until an answer says that the transaction is committed (`Committed`, `Sealed`), until the attempts are
//! spent (`Spent`), or until it made as many calls as it may. Each call is fixed by the calls and answers before it:
//!
//! | driver | last call and its answer | next call |
//! |---|---|---|
//! | local | none yet; step `Dies` or `Late`; commit `Invalid`; abort `Aborted` or `Idle`; fate `Ended` or `Unbegun` | begin |
//! | local | begin `Begun` or `Running`; step `Read`, `Wrote`, or `Waits` fewer than `tries` times in a row; commit `Unfinished`; fate `Running` | step |
//! | local | step `Waits` for the `tries`-th time in a row | abort |
//! | local | step `End` | commit |
//! | global | none yet; fate `Ended` or `Unbegun` | go |
//! | global | fate `Running` of an attempt of the transaction | again of it, or late of it after `tries` agains of it |
//! | both | every other answer | fate |
//!
//! `specs/Table.antt` is this table as a function, and `specs/Driving.antt` says that a driver's calls and its end are the table's.
#![tactic(auto)]

mod doors;
mod global;
mod local;
mod tape;

pub use doors::{CoordDoor, Driven, SiteDoor};
pub use fed_rules::Answer;
pub use global::drive_global;
pub use line_text::DoorErr;
pub use local::drive_local;
pub use tape::TapeDoor;
