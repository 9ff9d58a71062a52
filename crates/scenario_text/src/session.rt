//! A scenario with the commands behind it.
use fed_rules::{Commands, Scenario};

/// What `replay` is given: a scenario, and commands in the order of their lines.
#[derive(Drop)]
pub struct Session {
    pub scenario: Scenario,
    pub commands: Commands,
}
