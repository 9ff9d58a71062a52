//! The table agrees with the coordinator's past: each function does nothing, and its contract is the law.
ghost use Rattle.protocol_table.specs.Pasts.{AcksAgree, AcksGo, AnswersAgree, BeginsGo, ClassesAgree, DecisionsAgree, DecisionsGo, RecordsGo, RestartsGo, UndecidedStay, VotesAgree, VotesGo};

/// What the table answers of an attempt that it knows as the past does is what the past says: inquiries, votes, what is required, and
/// what of it is missing.
pub fn known_attempts_are_as_the_past()
    ensures answers { AnswersAgree }
    ensures votes { VotesAgree }
    ensures classes { ClassesAgree }
    ensures decisions { DecisionsAgree }
    ensures acks { AcksAgree }
{}

/// What a line makes of an attempt of the table is what the past with that line says of it.
pub fn known_attempts_go_with_the_past()
    ensures begins { BeginsGo }
    ensures votes { VotesGo }
    ensures stay { UndecidedStay }
    ensures records { RecordsGo }
    ensures decisions { DecisionsGo }
    ensures acks { AcksGo }
    ensures restarts { RestartsGo }
{}
