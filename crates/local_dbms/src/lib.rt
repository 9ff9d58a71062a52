//! One participating database system of a federation, seen from its own past alone: its core, and the programs of the local transactions
//! that are submitted to it by their numbers. A world of several sites and a host behind a lock use it alike.
#![tactic(auto)]

mod asks;
mod dbms;
mod found;
mod looks;
mod operations;
mod programs;
mod requests;

pub use asks::SiteAsk;
pub use dbms::LocalDbms;
pub use site_core::StepErr;
