//! The scripted stops.
ghost use Rattle.std.specs.Prelude.{◌≡◌, ◌≤◌, []};
ghost use Rattle.scenario_text.specs.Drafts.{with_stop};
ghost use Rattle.scenario_text.specs.Reads.{Gives};

use crate::bad::BadWhy;
use crate::fault::Fault;
use fed_rules::{StopLine, StopLines};
use std::alloc::Global;
use std::marker::Model;

/// The most stop lines of an actor.
const MOST_STOPS: u8 = 64;

/// Stop lines in their order.
#[derive(Drop)]
pub struct StopDraft {
    lines: Vec<StopLine>,
    /// How many of these lines each actor has, by its number.
    counts: [u8; 9],
}

impl Model for StopDraft {
    ghost use Rattle.std.specs.Prelude.{List};
    ghost use Rattle.fed_rules.specs.declared.scenario.StopLine.{StopLine};

    ghost Value = { List StopLine };

    ghost use Rattle.scenario_text.specs.Seen.{IsStopDraft};

    ghost view = { λ d. d.lines.items };

    ghost invariant = { λ d. IsStopDraft d.lines.items d.counts };
}

impl StopDraft {
    /// No stop line.
    pub fn new(alloc: Global) -> Self
        ensures { result ≡ [] }
    {
        StopDraft {
            lines: Vec::new(alloc),
            counts: [0; 9],
        }
    }

    /// Adds a stop, unless its actor has as many stop lines as it may have.
    #[tactic(auto, unfolding(crate::specs::Drafts::with_stop))]
    pub fn add(&mut self, line: StopLine) -> Result<(), Fault>
        requires { line.actor ≤ 8 }
        ensures { Gives (λ _. self.new) result (with_stop line self.old) }
    {
        let count = self.counts[line.actor as usize];
        if count >= MOST_STOPS {
            return Err(Fault::Bad(BadWhy::Many));
        }
        self.lines.push(line)?;
        self.counts[line.actor as usize] = count + 1;
        Ok(())
    }

    /// The lines, without memory.
    pub fn into_lines(self) -> StopLines
        ensures { result ≡ self }
    {
        let StopDraft { lines, .. } = self;
        StopLines::of(lines)
    }
}
