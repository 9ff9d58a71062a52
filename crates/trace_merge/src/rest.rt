//! What is left of one list.
ghost use Rattle.std.specs.Prelude.{◌≡◌, ◌<◌, Some, drop, length, option_map, slice_get};
ghost use Rattle.fed_rules.specs.declared.commands.Stamped.{Stamped as TheStamped};

use fed_rules::{Stamped, StampedLines};
use std::marker::Model;

/// What is left of a list of lines, which contracts see as the list of these.
#[derive(Drop)]
pub struct Rest<'a> {
    lines: &'a [Stamped],
}

impl<'a> Model for Rest<'a> {
    ghost use Rattle.std.specs.Prelude.{List};
    ghost use Rattle.fed_rules.specs.declared.commands.Stamped.{Stamped};

    ghost Value = { List Stamped };

    ghost view = { λ r. r.lines.now };
}

impl<'a> Rest<'a> {
    /// All of the list.
    pub fn of(list: &'a StampedLines) -> Rest<'a>
        ensures { result ≡ list.now }
    {
        Rest {
            lines: list.as_slice(),
        }
    }

    /// The stamp of the first line, where one is left.
    pub fn stamp(&self) -> Option<u64>
        ensures { result ≡ option_map (λ (line : TheStamped). line.stamp) (slice_get self.now 0) }
    {
        match self.lines.first() {
            Some(line) => Some(line.stamp),
            None => None,
        }
    }

    /// The first line.
    pub fn first(&self) -> &Stamped
        requires { 0 < length self.now }
        ensures { slice_get self.now 0 ≡ Some result.now }
    {
        &self.lines[0]
    }

    /// Leaves the first line out.
    pub fn advance(&mut self)
        requires { 0 < length self.old }
        ensures { self.new ≡ drop 1 self.old }
    {
        self.lines = &self.lines[1..];
    }
}
