//! The verdict is the agreement.
ghost use Rattle.audit_rules.specs.Agreements.{YesIsAgreement};
ghost use Rattle.audit_rules.specs.Differences.{NamesFirst};

/// A printed run has the verdict that it agrees exactly where it agrees in the field's words: its lines are those of
/// declared sites and actors, each the right one on the lines before it; behind them all is at rest; the order is a
/// merge of the site orders; and the report is that of the session in this order.
pub fn a_yes_is_agreement<T>()
    ensures { YesIsAgreement T }
{}

/// Where the verdict names a line, the lines before it are read and right, and it is the first that fails, for the
/// first reason that fits.
pub fn a_verdict_names_the_first_line<T>()
    ensures { NamesFirst T }
{}
