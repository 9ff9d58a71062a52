//! What the sites settle: all participants that reach a decision reach the same one, the first property of atomic commitment, and they do
//! under each presumption and among participants of different ones (Mohan, Lindsay, Obermarck 1986; Al-Houmaily, Chrysanthis 1999).
ghost use Rattle.commit_laws.specs.Outcomes.{SettlesSayTheOutcome, SettlesCommitWhereKept, SitesAgree};

/// Every line in which a site settles a global attempt says the attempt's outcome over the whole story. The outcome is commit exactly
/// where a Commit of the attempt stands in the coordinator's kept records at the end of the story.
pub fn sites_settle_the_outcome()
    ensures outcome { SettlesSayTheOutcome }
    ensures commit { SettlesCommitWhereKept }
{}

/// No two sites, and no two lines of one site, settle an attempt differently, whatever protocols the sites have.
pub fn sites_settle_alike()
    ensures { SitesAgree }
{}
