//! The commands.
ghost use Rattle.std.specs.Prelude.{◌≡◌, []};
ghost use Rattle.scenario_text.specs.Drafts.{with_command};
ghost use Rattle.scenario_text.specs.Reads.{Gives};

use crate::bad::BadWhy;
use crate::fault::Fault;
use fed_rules::{Command, Commands};
use std::alloc::Global;
use std::marker::Model;

/// The most commands of a text.
const MOST_COMMANDS: usize = 65_536;

/// Commands in the order of their lines.
#[derive(Drop)]
pub struct CommandDraft {
    items: Vec<Command>,
}

impl Model for CommandDraft {
    ghost use Rattle.std.specs.Prelude.{List};
    ghost use Rattle.fed_rules.specs.declared.commands.Command.{Command};

    ghost Value = { List Command };

    ghost view = { λ d. d.items.items };
}

impl CommandDraft {
    /// No command.
    pub fn new(alloc: Global) -> Self
        ensures { result ≡ [] }
    {
        CommandDraft {
            items: Vec::new(alloc),
        }
    }

    /// Adds a command, unless there are as many as there may be.
    #[tactic(auto, unfolding(crate::specs::Drafts::with_command))]
    pub fn add(&mut self, command: Command) -> Result<(), Fault>
        ensures { Gives (λ _. self.new) result (with_command command self.old) }
    {
        if self.items.len() >= MOST_COMMANDS {
            return Err(Fault::Bad(BadWhy::Many));
        }
        self.items.push(command)?;
        Ok(())
    }

    /// The commands, without memory.
    pub fn into_commands(self) -> Commands
        ensures { result ≡ self }
    {
        let CommandDraft { items } = self;
        Commands::of(items)
    }
}
