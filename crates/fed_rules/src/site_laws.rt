//! What the past of a site is.
ghost use Rattle.fed_rules.specs.Lines.{EachLineIsAskedFor};
ghost use Rattle.fed_rules.specs.Pasts.{PastsAreMadeByEvents};

/// In the story of any commands the past of a declared site is the one that some events make, so what holds of every past that events make
/// holds of every site in every story.
pub fn pasts_are_made_by_events()
    ensures { PastsAreMadeByEvents }
{}

/// In every story each command makes happen a line of a declared site or of the coordinator, at an event that the command asked for, or
/// no line.
pub fn each_line_is_asked_for()
    ensures { EachLineIsAskedFor }
{}
