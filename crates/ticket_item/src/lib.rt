//! The ticket of a site (Georgakopoulos, Rusinkiewicz, Sheth, IEEE TKDE 6(1), 1994): a number that each global subtransaction
//! takes before it is sealed, so that the tickets show the order in which the site serializes them.
//!
//! The number is published at sealing; that is this project's profile.
#![tactic(auto)]

mod holders;
mod item;

pub use item::TicketItem;
