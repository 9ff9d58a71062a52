//! Which answers a command can have, and where places of sent messages stand.
ghost use Rattle.std.specs.Prelude.{◌≡◌, ◌&&◌};
ghost use Rattle.line_text.specs.Fits as fits;

use fed_rules::{Answer, Cause, Command, Place};
use mdb_base::{Reply, SiteId, Why};
use presumptions::Decision;

fn is_reply(reply: &Reply) -> bool
    ensures { result ≡ fits.is_reply reply.now }
{
    !matches!(
        reply,
        Reply::Refused(Why::Invalid { .. } | Why::TicketMoved { .. })
    )
}

fn is_no(why: &Option<Why>) -> bool
    ensures { result ≡ fits.is_no why.now }
{
    matches!(
        why,
        None | Some(Why::Invalid { .. } | Why::TicketMoved { .. })
    )
}

fn is_cause(cause: &Cause) -> bool
    ensures { result ≡ fits.is_cause cause.now }
{
    match cause {
        Cause::Cycle(edges) => matches!(edges.as_slice(), [_, ..]),
        _ => true,
    }
}

fn is_decided(decision: Decision, cause: &Option<Cause>) -> bool
    ensures { result ≡ fits.is_decided decision cause.now }
{
    match (decision, cause) {
        (Decision::Commit, None) => true,
        (Decision::Abort, Some(cause)) => is_cause(cause),
        _ => false,
    }
}

fn is_given_up(decision: Decision, cause: &Option<Cause>) -> bool
    ensures { result ≡ fits.is_given_up decision cause.now }
{
    match decision {
        Decision::Commit => false,
        Decision::Abort => is_decided(decision, cause),
    }
}

fn is_begin_answer(answer: &Answer) -> bool
    ensures { result ≡ fits.is_begin_answer answer.now }
{
    matches!(
        answer,
        Answer::None
            | Answer::Down
            | Answer::Committed(_)
            | Answer::Running(_)
            | Answer::Spent
            | Answer::Begun(_)
    )
}

fn is_step_answer(answer: &Answer) -> bool
    ensures { result ≡ fits.is_step_answer answer.now }
{
    matches!(
        answer,
        Answer::None
            | Answer::Down
            | Answer::Idle
            | Answer::End
            | Answer::Read(..)
            | Answer::Wrote(..)
            | Answer::Waits(_)
            | Answer::Dies(_)
            | Answer::Late(_)
    )
}

fn is_commit_answer(answer: &Answer) -> bool
    ensures { result ≡ fits.is_commit_answer answer.now }
{
    matches!(
        answer,
        Answer::None
            | Answer::Down
            | Answer::Idle
            | Answer::Unfinished
            | Answer::Invalid(..)
            | Answer::Stopped(_)
            | Answer::Sealed(..)
    )
}

fn is_abort_answer(answer: &Answer) -> bool
    ensures { result ≡ fits.is_abort_answer answer.now }
{
    matches!(
        answer,
        Answer::None | Answer::Down | Answer::Idle | Answer::Aborted(_)
    )
}

fn is_fate_answer(answer: &Answer) -> bool
    ensures { result ≡ fits.is_fate_answer answer.now }
{
    matches!(
        answer,
        Answer::None
            | Answer::Down
            | Answer::Committed(_)
            | Answer::Running(_)
            | Answer::Unbegun
            | Answer::Ended
    )
}

fn is_again_answer(answer: &Answer) -> bool
    ensures { result ≡ fits.is_again_answer answer.now }
{
    matches!(
        answer,
        Answer::None | Answer::Down | Answer::Idle | Answer::Defers | Answer::Only
    )
}

fn is_late_answer(answer: &Answer) -> bool
    ensures { result ≡ fits.is_late_answer answer.now }
{
    match answer {
        Answer::None | Answer::Down | Answer::Idle | Answer::Stopped(_) => true,
        Answer::Decides {
            decision,
            cause,
            ..
        } => is_given_up(*decision, cause),
        _ => false,
    }
}

fn is_give_answer(answer: &Answer) -> bool
    ensures { result ≡ fits.is_give_answer answer.now }
{
    match answer {
        Answer::None
        | Answer::Down
        | Answer::VotesYes(..)
        | Answer::Settles(..)
        | Answer::Unheld(_)
        | Answer::Stopped(_) => true,
        Answer::Did(_, reply) => is_reply(reply),
        Answer::VotesNo(_, why) => is_no(why),
        _ => false,
    }
}

fn is_take_answer(answer: &Answer) -> bool
    ensures { result ≡ fits.is_take_answer answer.now }
{
    match answer {
        Answer::None
        | Answer::Down
        | Answer::Ignored
        | Answer::TookWaits
        | Answer::Voted
        | Answer::Acked
        | Answer::Forgets
        | Answer::Undecided
        | Answer::Answers(_)
        | Answer::Presumes(_)
        | Answer::Initiates
        | Answer::Defers
        | Answer::Only
        | Answer::Stopped(_) => true,
        Answer::Decides {
            decision,
            cause,
            ..
        } => is_decided(*decision, cause),
        _ => false,
    }
}

fn is_ask_answer(answer: &Answer) -> bool
    ensures { result ≡ fits.is_ask_answer answer.now }
{
    matches!(answer, Answer::Down | Answer::Idle | Answer::Asks(_))
}

fn is_drop_answer(answer: &Answer) -> bool
    ensures { result ≡ fits.is_drop_answer answer.now }
{
    matches!(answer, Answer::Down | Answer::Idle | Answer::Dropped(_))
}

fn is_halt_answer(answer: &Answer) -> bool
    ensures { result ≡ fits.is_halt_answer answer.now }
{
    matches!(answer, Answer::Down | Answer::Stopped(_))
}

fn is_back_answer(actor: u8, answer: &Answer) -> bool
    ensures { result ≡ fits.is_back_answer actor answer.now }
{
    match answer {
        Answer::Awake | Answer::Stopped(_) => true,
        Answer::UpCoord { .. } => actor == 0,
        Answer::UpSite { .. } => actor > 0,
        _ => false,
    }
}

fn is_check_answer(answer: &Answer) -> bool
    ensures { result ≡ fits.is_check_answer answer.now }
{
    matches!(
        answer,
        Answer::Down | Answer::Large | Answer::Stopped(_) | Answer::Checked
    )
}

fn answer_fits(command: &Command, answer: &Answer) -> bool
    ensures { result ≡ fits.answer_fits command.now answer.now }
{
    match *command {
        Command::Begin(_) | Command::Go(_) => is_begin_answer(answer),
        Command::Step(_) => is_step_answer(answer),
        Command::Commit(_) => is_commit_answer(answer),
        Command::Abort(_) => is_abort_answer(answer),
        Command::Fate(_) => is_fate_answer(answer),
        Command::Again(_) => is_again_answer(answer),
        Command::Late(_) => is_late_answer(answer),
        Command::Give { .. } => is_give_answer(answer),
        Command::Take { .. } => is_take_answer(answer),
        Command::Ask { .. } => is_ask_answer(answer),
        Command::Drop { .. } => is_drop_answer(answer),
        Command::Halt { .. } => is_halt_answer(answer),
        Command::Trip { .. } => matches!(answer, Answer::Set),
        Command::Back { actor } => is_back_answer(actor, answer),
        Command::Check { .. } => is_check_answer(answer),
    }
}

fn coordinator_sends(command: &Command, answer: &Answer) -> bool
    ensures { result ≡ fits.coordinator_sends command.now answer.now }
{
    match command {
        Command::Go(_) => matches!(answer, Answer::Begun(_)),
        Command::Again(_) => matches!(answer, Answer::Only),
        Command::Late(_) => matches!(answer, Answer::Decides { .. }),
        Command::Take { .. } => matches!(
            answer,
            Answer::Decides { .. }
                | Answer::Answers(_)
                | Answer::Presumes(_)
                | Answer::Initiates
                | Answer::Defers
                | Answer::Only
        ),
        _ => false,
    }
}

fn sending_site(command: &Command, answer: &Answer) -> Option<SiteId>
    ensures { result ≡ fits.sending_site command.now answer.now }
{
    match (command, answer) {
        (
            Command::Give { site, .. },
            Answer::Did(..)
            | Answer::VotesYes(..)
            | Answer::VotesNo(..)
            | Answer::Settles(..)
            | Answer::Unheld(_),
        ) => Some(*site),
        (Command::Ask { site, .. }, Answer::Asks(_)) => Some(*site),
        _ => None,
    }
}

fn sites_rise(places: &[Place]) -> bool
    ensures { result ≡ fits.sites_rise places.now }
{
    let mut rest = places;
    while let [sent, more @ ..] = rest {
        if let [next, ..] = more {
            if next.site.0 <= sent.site.0 {
                return false;
            }
        }
        rest = more;
    }
    true
}

fn is_one_of(site: Option<SiteId>, places: &[Place]) -> bool
    ensures { result ≡ fits.is_one_of site places.now }
{
    match (site, places) {
        (Some(site), [sent]) => sent.site.0 == site.0,
        _ => false,
    }
}

fn places_fit(command: &Command, answer: &Answer, places: &[Place]) -> bool
    ensures { result ≡ fits.places_fit command.now answer.now places.now }
{
    match places {
        [] => !matches!(answer, Answer::Only),
        [..] => {
            (coordinator_sends(command, answer) && sites_rise(places))
                || is_one_of(sending_site(command, answer), places)
        }
    }
}

/// Whether the answer and the places are some that the command can have.
pub fn line_fits(command: &Command, answer: &Answer, places: &[Place]) -> bool
    ensures { result ≡ (fits.answer_fits command.now answer.now && fits.places_fit command.now answer.now places.now) }
{
    answer_fits(command, answer) && places_fit(command, answer, places)
}
