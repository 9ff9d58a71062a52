//! Where the messages and commands of a session go: the channels of the sites, the places of the sites among the declared ones, the homes of
//! local transactions, and the rows that a site starts from.
#![tactic(auto)]

mod numbers;
mod posting;
mod routes;
mod rows;
mod traffic;

pub use numbers::{line_of, protocols_of, sites_of};
pub use posting::{make_room, message_to, post};
pub use routes::Routes;
pub use rows::first_rows;
pub use traffic::Traffic;
