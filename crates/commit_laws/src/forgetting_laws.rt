//! When the coordinator forgets: once it has the acknowledgements that the participants' protocols require, and it answers later inquiries
//! by the presumption of the inquirer's protocol (Al-Houmaily, Chrysanthis 1999).
ghost use Rattle.commit_laws.specs.Endings.{StoriesAnswerInDoubt, StoriesEndAlike, StoriesForgetExactly};
ghost use Rattle.commit_laws.specs.Forgetting.{ForgottenAreAcknowledged, ForgottenWhenNoneIsMissing, InquiriesAreAnsweredTheOutcome, KnownWhileMissing, PresumptionsAreRight, RestartsCountAnew};

/// A decided attempt is known only while a required acknowledgement is missing. While it is known, its decision is the outcome, and some
/// required acknowledgement hasn't counted since the decision or the coordinator's last start, whichever is later. A line, other than
/// a stop or a start, behind which it isn't known any more leaves none missing. Behind a stop or a start all are missing: they are
/// counted anew. Of an attempt that isn't known, each site whose acknowledgement of the outcome is required has sent it.
pub fn attempts_are_forgotten_when_acknowledged()
    ensures known { KnownWhileMissing }
    ensures forgotten { ForgottenWhenNoneIsMissing }
    ensures restarted { RestartsCountAnew }
    ensures acknowledged { ForgottenAreAcknowledged }
{}

/// Where the coordinator doesn't know an attempt and a site is in doubt of it, the presumption of the site's protocol is the attempt's
/// outcome. So a line that takes an inquiry of that site answers and sends the outcome, unless the coordinator is down or is stopped there.
pub fn inquiries_in_doubt_are_answered_the_outcome()
    ensures presumption { PresumptionsAreRight }
    ensures answer { InquiriesAreAnsweredTheOutcome }
{}

/// How global attempts end, at every line of any story, by the outcome at its end. Every line that settles an attempt says it. An attempt
/// is known from the line that begins it until its required acknowledgements are in, counted since its decision or the coordinator's last
/// start, and behind a stop or a start as its records say. An inquiry afterwards, from a site in doubt, is answered it.
pub fn attempts_end_by_their_outcomes()
    ensures alike { StoriesEndAlike }
    ensures forgets { StoriesForgetExactly }
    ensures answers { StoriesAnswerInDoubt }
{}
