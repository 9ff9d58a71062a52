//! The attempts go with the coordinator's past.
ghost use Rattle.global_exec.specs.Sets.{SetsAreLists};
ghost use Rattle.global_exec.specs.Pasts.{AnswersGo, NewsAgree, RepliesAgree, VotesAgree, VotesGo, WaitsGo};

/// What a line that counts a message of an attempt makes of it is what the past with that line says.
pub fn attempts_go_with_the_past()
    ensures waits { WaitsGo }
    ensures answers { AnswersGo }
    ensures votes { VotesGo }
{}

/// What counts in the table counts by the past.
pub fn attempts_count_as_the_past()
    ensures replies { RepliesAgree }
    ensures votes { VotesAgree }
    ensures news { NewsAgree }
{}

/// A set that has the sites of a rising list is seen as that list.
pub fn sets_are_rising_lists()
    ensures { SetsAreLists }
{}
