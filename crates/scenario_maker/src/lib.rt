//! Scenarios that a number makes: sites with ten rows of 100 each, and transactions that move amounts between rows, so that a whole run of them
//! leaves the total as it was.
#![tactic(auto)]

mod draws;
mod laws;
mod maker;
mod transfers;

pub use laws::first_numbers;
pub use maker::make;
