//! The end of a session. Closing leaves every actor up, no trip armed, and nothing live, in doubt or known; and each transaction without a
//! commit can be finished alone.
#![tactic(auto)]

mod actors;
mod alone;
mod carrying;
mod closing;
mod delivering;
mod exchanging;
mod reading;
mod sent;
mod unfinished;

pub use alone::finish_alone;
pub use closing::close;
