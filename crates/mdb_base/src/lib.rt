//! The names, acts, replies and programs that every crate of the federation speaks of.
#![tactic(auto)]

mod acts;
mod few;
mod few_rising;
mod lists;
mod names;
mod plain;
mod program;
mod replies;
mod rising;
mod rows;
mod text;

pub use acts::{Act, PlainAct, Step};
pub use few::Few;
pub use few_rising::FewRising;
pub use lists::ListOf;
pub use names::{Engine, Fate, Key, Memory, SiteId, SiteTicket, Tid, Tx};
pub use plain::next_act;
pub use program::{Next, Program, ProgramErr};
pub use replies::{Edge, Reply, Why};
pub use rising::{Keyed, Rising};
pub use rows::{Put, SiteRows, sort_rows};
pub use text::{put_number, put_text, put_tid};

/// Rows by rising key.
pub type Puts = Rising<Put>;

/// Values in the order in which a program read them.
pub type Values = ListOf<u64>;

/// Attempts in an order that the giver says.
pub type Tids = ListOf<Tid>;

/// The edges of a cycle, in order.
pub type Edges = ListOf<Edge>;

/// The tickets of an attempt by rising site.
pub type Tickets = Rising<SiteTicket>;
