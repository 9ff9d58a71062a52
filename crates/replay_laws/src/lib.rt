//! The commands of a session at rest, given again, give the same lines and the same report, and print the same text,
//! but for the edges of the cycles that refusals print. Each law is the contract of a function that does nothing.
#![tactic(auto)]

mod replayed;
mod wrong_rules;

pub use replayed::{
    closing_adds_nothing, commands_give_again, commands_print_again, right_lines_agree,
};
pub use wrong_rules::{wrong_closing, wrong_sameness};
