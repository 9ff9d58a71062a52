//! The serial laws of strict two-phase locking with wait-die, strict timestamp order, backward validation with prepared runs and
//! multiversion timestamp order: theorems on the definitions alone, over every good start and every list of right lines. A law is the
//! contract of a function with an empty body. `docs/RULES.md` tells each one and the idea of its proof.
//!
//! A restart begins with the transactions that a site's records leave in doubt. Lemmas in `proofs/` say which these are, and that each is
//! one attempt's.
#![tactic(auto)]

mod every_rule;
mod locking;
mod multiversion;
mod timestamp;
mod validation;
mod wrong_rules;

pub use every_rule::{
    each_site_commits_any_sealed, each_site_is_serial, each_site_may_restart,
    each_site_orders_tickets, epochs_are_serial, restored_runs_keep_their_writes,
    rows_give_the_table,
};
pub use locking::{
    locking_answers, locking_commits_any_sealed, locking_has_no_conflicts, locking_is_serial,
    locking_may_restart, locking_orders_tickets,
};
pub use multiversion::{
    multiversion_answers, multiversion_commits_any_sealed, multiversion_is_serial,
    multiversion_may_restart, multiversion_orders_tickets, multiversion_readers_pass,
    multiversion_reads_its_version,
};
pub use timestamp::{
    timestamp_answers, timestamp_commits_any_sealed, timestamp_is_serial, timestamp_may_restart,
    timestamp_orders_tickets,
};
pub use validation::{
    validation_answers, validation_commits_any_sealed, validation_is_serial,
    validation_may_restart, validation_orders_tickets,
};
pub use wrong_rules::{wrong_locking, wrong_multiversion, wrong_timestamp_order, wrong_validation};
