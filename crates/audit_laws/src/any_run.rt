//! Any printed run, whatever its lines are made of.
ghost use Rattle.audit_laws.specs.Resting.{QuietRunsRest};
ghost use Rattle.audit_rules.specs.Audited.{YesImpliesHeadline};

use federation_laws::federation_is_serializable;

/// A printed run that agrees with its scenario has the headline, with its printed order in place of the least one:
/// its lines are right, all is at rest behind them, the order is a merge of the site orders, holds every committed
/// transaction and names it once, and its programs, one at a time, give every printed read and every table; no global
/// transaction ends differently at two sites; each is forgotten exactly when its required acknowledgements are in,
/// and an inquiry afterwards gets its true outcome.
pub fn a_yes_implies_the_headline<T>()
    ensures { YesImpliesHeadline T }
{
    federation_is_serializable();
}

/// What the audit takes for rest is what closing leaves: every actor is up, no trip is armed, and nothing is live, in
/// doubt or known.
pub fn quiet_runs_rest()
    ensures { QuietRunsRest }
{}
