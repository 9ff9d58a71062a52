//! The book of a site's prepared transactions: those that it sealed and whose outcome it doesn't know.
#![tactic(auto)]

mod book;
mod places;

pub use book::PreparedBook;
pub use fed_rules::Doubt;
