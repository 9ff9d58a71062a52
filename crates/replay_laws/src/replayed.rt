//! The commands of a session at rest, given again.
ghost use Rattle.replay_laws.specs.Printed.{CommandsPrintAgain};
ghost use Rattle.replay_laws.specs.Replayed.{ClosingAddsNothing, CommandsGiveAgain, RightLinesAgree, RightLinesAreOne};

/// Behind a session at rest closing adds no command.
pub fn closing_adds_nothing()
    ensures { ClosingAddsNothing }
{}

/// Right lines of the same commands are the same but for the edges of the cycles that refusals print, and where none
/// refuses for a cycle they are the same.
pub fn right_lines_agree()
    ensures bare { RightLinesAgree }
    ensures one { RightLinesAreOne }
{}

/// The commands of a session at rest, closed, give each line again, but for the edges of cycles, and the report;
/// where no line refuses for a cycle, the very same lines.
pub fn commands_give_again()
    ensures { CommandsGiveAgain }
{
    closing_adds_nothing();
    right_lines_agree();
}

/// The commands of a session at rest, closed, print its text again, but for the edges of cycles: each line and the
/// report. Where no line refuses a commit for a cycle they print it byte for byte.
pub fn commands_print_again()
    ensures { CommandsPrintAgain }
{
    commands_give_again();
}
