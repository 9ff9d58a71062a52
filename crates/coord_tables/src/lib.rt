//! What a coordinator that is up keeps of its attempts, and how it agrees with the coordinator's past: the protocol table, the executions,
//! the stages, the committed attempts, and the ticket graph.
//!
//! The tables serve a past where each of them says what the past says. A change of the tables belongs to one line of the coordinator: its
//! contract names what it changes, and laws in `proofs/` say that the tables then serve the past with that line added. The law of a start,
//! which speaks of written records, stands in `coord_core`.
//!
//! No call touches a disk. Out of memory, a call leaves all tables listing what they listed; only `restart`, which makes the tables anew from
//! a Sum of the records while the coordinator is down, may leave some of them made.
//!
//! Of a journal that is found only the counts of attempts are read before the first start: the tables of a coordinator that is down say nothing.
//!
//! The committed attempts and the transactions that were begun are kept in trees by transaction, and the undecided attempts in maps by name
//! or by transaction, in the order in which they were begun. A call finds its attempt without a scan of the others. Over all undecided
//! attempts go the look for those that take their tickets, the least tickets at a decision, and the closing of the order where an attempt
//! ends.
#![tactic(auto)]

mod acks;
mod begun;
mod commit_graph;
mod committed;
mod deciding;
mod found;
mod going;
mod listing;
mod messages;
mod outgoing;
mod replies;
mod restoring;
mod sites;
mod stages;
mod tables;
mod votes;

pub use begun::{Begun, Count};
pub use commit_graph::CommitGraph;
pub use committed::Committed;
pub use found::begun_by;
pub use listing::rising_tids;
pub use messages::{decide_to, send_dues};
pub use outgoing::{passed, some_held, some_take};
pub use replies::Taken;
pub use restoring::tickets_of;
pub use sites::{participants_in, sites_of};
pub use stages::{Stage, Stages};
pub use tables::Tables;
