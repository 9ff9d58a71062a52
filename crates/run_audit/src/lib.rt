//! The audit of a printed run: a world of the scenario carries out the commands of the printed lines one by one, and each line is compared with
//! the one that the world makes. Nothing of the verdict is decided but by what is printed and what the world does.
#![tactic(auto)]

mod auditing;
mod candidates;
mod ends;
mod errors;
mod lines;
mod submitted;
mod turns;

pub use audit_rules::{Verdict, What};
pub use auditing::audit;
pub use errors::AuditErr;
pub use submitted::{Submitted, submit};
