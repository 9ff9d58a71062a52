//! How a client waits while it drives a transaction.
//!
//! Where a call got nowhere, the client waits until the host rests. Where an attempt was refused or given up, the next one isn't begun at
//! once: what refused it is often still there, and of two clients that refuse each other neither would get through. So the client stands
//! back until no client has an attempt under way, and such attempts go on one at a time. Each wait is bounded (`moves`).
use crate::moves::Moves;
use crate::wakes::Sites;
use client_drivers::{Answer, DoorErr};

/// Whether a call got nowhere: the attempt still runs or waits, or the actor is down.
fn got_nowhere(answer: &Result<Answer, DoorErr>) -> bool {
    match answer {
        Ok(Answer::Running(_)) | Ok(Answer::Waits(_)) | Ok(Answer::Down) => true,
        _ => false,
    }
}

/// Whether the actor is down.
fn is_down(answer: &Result<Answer, DoorErr>) -> bool {
    match answer {
        Ok(Answer::Down) => true,
        _ => false,
    }
}

/// A client's drive of one transaction at one host.
#[derive(Drop)]
pub(crate) struct Drive<'a> {
    moves: &'a Moves,
    /// The actor of the host.
    actor: u8,
    /// Whether an attempt of the transaction was begun.
    has_begun: bool,
}

impl<'a> Drive<'a> {
    /// A drive that began no attempt yet.
    pub(crate) fn new(moves: &'a Moves, actor: u8) -> Drive<'a> {
        Drive {
            moves,
            actor,
            has_begun: false,
        }
    }

    /// Stands back before an attempt is begun. The first one is begun at once.
    pub(crate) fn stand_back(&mut self) {
        if self.has_begun {
            self.moves.note_over();
            self.moves.begin_alone();
            self.moves.await_rest(self.actor);
        } else {
            self.has_begun = true;
            self.moves.note_begun();
        }
    }

    /// Whether a turn of the host may help: its actor is down and starts again, or it is a site, which may ask about what it is in doubt of.
    fn may_help(&self, answer: &Result<Answer, DoorErr>) -> bool {
        is_down(answer) || self.actor != 0
    }

    /// Waits where the call got nowhere. The host is woken where a turn of it may help.
    pub(crate) fn pause(&self, answer: &Result<Answer, DoorErr>) {
        if got_nowhere(answer) {
            if self.may_help(answer) {
                self.moves.wake(self.actor);
            }
            self.moves.await_rest(self.actor);
        }
    }

    /// Whether a turn of the host alone leads on: the actor is down, or a global transaction runs.
    fn wants_turn(&self, answer: &Result<Answer, DoorErr>) -> bool {
        is_down(answer) || (self.actor == 0 && got_nowhere(answer))
    }

    /// What the client is told of its transaction. Where a turn of the host alone leads on, and it takes none any more, the client is told
    /// that the attempts are spent, so it makes no further call.
    pub(crate) fn told(&self, answer: Result<Answer, DoorErr>) -> Result<Answer, DoorErr> {
        if self.wants_turn(&answer) && self.moves.has_ended(self.actor) {
            drop(answer);
            Ok(Answer::Spent)
        } else {
            answer
        }
    }

    /// Notes that the coordinator sent something to these sites.
    pub(crate) fn note_asked(&self, sites: Sites) {
        self.moves.note_asked(sites);
    }

    /// Notes that the transaction, a local one, may have ended.
    pub(crate) fn note_local(&self) {
        self.moves.note_local(self.actor);
    }

    /// Ends the drive: no attempt of the transaction is under way any more.
    pub(crate) fn end(&mut self) {
        if self.has_begun {
            self.has_begun = false;
            self.moves.note_over();
        }
    }
}
