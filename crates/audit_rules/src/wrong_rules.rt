//! Rules of an audit that look right and aren't.
ghost use Rattle.audit_rules.specs.WrongRules.{FaultsTheNextLine, NamesALaterReason, NamesAnotherLine, TakesForACycle, TakesForAMerge, TakesForRest, counted_from_zero, last_fault, names_again, names_some, places_first, rests_armed, whole_answers, without_closing_edge};

/// A test for cycles that doesn't ask whether an edge closes it takes for a cycle what is none.
pub fn wrong_cycles()
    ensures { TakesForACycle without_closing_edge }
{}

/// Where answers are compared with the edges that they name, a line differs that may be printed. Where places are
/// compared first, a line whose answer differs fails for its places.
pub fn wrong_reasons()
    ensures edges { FaultsTheNextLine whole_answers }
    ensures places { NamesALaterReason places_first }
{}

/// Where armed trips are overlooked, a session is at rest that isn't.
pub fn wrong_rest()
    ensures { TakesForRest rests_armed }
{}

/// An order that leaves a member out, or names one twice, is no merge.
pub fn wrong_orders()
    ensures left_out { TakesForAMerge names_some }
    ensures twice { TakesForAMerge names_again }
{}

/// Where lines are counted from 0, or the first of two that fail is passed over, another line is named than the first
/// that fails.
pub fn wrong_verdicts()
    ensures counted { NamesAnotherLine counted_from_zero }
    ensures passed { NamesAnotherLine last_fault }
{}
