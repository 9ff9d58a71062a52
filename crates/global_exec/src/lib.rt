//! The coordinator's table of undecided attempts: how far the program of each has come, and what is outstanding at its participants.
//!
//! The steps of a program run one after another; a site's ticket is taken when its last step is answered, and it is prepared when
//! its ticket is there (Georgakopoulos, Rusinkiewicz, Sheth, IEEE TKDE 6(1), 1994; the profile's messages).
#![tactic(auto)]

mod attempt;
mod ends;
mod entries;
mod exec;
mod following;
mod laws;
mod news;
mod policy;
mod progress;

pub use attempt::Attempt;
pub use ends::DidEnd;
pub use exec::GlobalExec;
pub use fed_rules::{Due, Dues};
pub use laws::{attempts_count_as_the_past, attempts_go_with_the_past, sets_are_rising_lists};
pub use policy::{Always, SiteSet, TakePolicy};
pub use progress::Progress;
