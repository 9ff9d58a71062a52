//! Scenarios and commands as text: what a text spells, or its first bad line with the reason.
#![tactic(auto)]

mod bad;
mod command_lines;
mod draft;
mod entry;
mod fault;
mod first_words;
mod fronts;
mod names;
mod pieces;
mod reading;
mod scenario_lines;
mod session;
mod steps;
mod usual_commands;
mod usual_steps;

pub use bad::{BadLine, BadWhy, TextErr};
pub use fed_rules::{Command, Commands, ItemLine, LinkLine, Scenario, SiteLine, StopLine, TxLine};
pub use names::number_in;
pub use reading::{read_commands, read_scenario};
pub use session::Session;
