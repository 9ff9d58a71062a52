//! What is done to a host alone, and what is to come of it.
use fed_hosts::DoorErr;
use fed_messages::{Envelope, Packet, encode_from, encode_to};
use fed_rules::{Answer, Command, FromSite, StopLine, ToSite};
use mdb_base::{SiteId, Tid, Tx};

/// The site whose host is tested, and the coordinator's first one.
pub(super) const FIRST: SiteId = SiteId(1);

/// The coordinator's other site.
pub(super) const SECOND: SiteId = SiteId(2);

/// The local transaction of the first site.
pub(super) const LOCAL: Tx = Tx(1);

/// The global transaction.
pub(super) const GLOBAL: Tx = Tx(2);

/// Its first attempt.
pub(super) const TID: Tid = Tid {
    tx: GLOBAL,
    attempt: 0,
};

/// A message with its number and its stamp.
#[derive(Clone, Copy)]
pub(super) enum Mail {
    To(u32, u64, ToSite),
    From(u32, u64, FromSite),
}

/// What is done to a host.
#[derive(Clone, Copy)]
pub(super) enum Deed {
    /// A client asks it.
    Ask(Command),
    /// It has a turn.
    Turn,
    /// A message is on its way to it, through the ring of this place.
    Send(usize, Mail),
}

/// What comes of it.
#[derive(Clone, Copy, PartialEq, Eq)]
pub(super) enum Outcome {
    /// It answers `none`.
    Unknown,
    Spent,
    /// It answers otherwise.
    Answered,
    /// A turn says that it made a line.
    Made,
    /// It says that it made none.
    Idle,
    Sent,
    Disk,
    Memory,
    /// A host has no such call, or no such ring.
    Nothing,
}

/// A session of a host: the disk calls that fail, the scripted stops, the deeds one behind the other with what is to come of each, the lines
/// that are left, each behind its stamp, and the messages that come out of the rings of these places.
#[derive(Clone, Copy)]
pub(super) struct Session<'a> {
    pub(super) fails: &'a [u32],
    pub(super) stops: &'a [StopLine],
    pub(super) deeds: &'a [(Deed, Outcome)],
    pub(super) lines: &'a str,
    pub(super) sent: &'a [(usize, Mail)],
}

fn failed(why: DoorErr) -> Outcome {
    match why {
        DoorErr::Disk => Outcome::Disk,
        DoorErr::Memory => Outcome::Memory,
    }
}

/// What came of a client's call.
pub(super) fn asked(answer: Result<Answer, DoorErr>) -> Outcome {
    match answer {
        Ok(Answer::None) => Outcome::Unknown,
        Ok(Answer::Spent) => Outcome::Spent,
        Ok(_) => Outcome::Answered,
        Err(why) => failed(why),
    }
}

/// What came of a turn.
pub(super) fn turned(made: Result<bool, DoorErr>) -> Outcome {
    match made {
        Ok(true) => Outcome::Made,
        Ok(false) => Outcome::Idle,
        Err(why) => failed(why),
    }
}

/// The packet that bears a message.
pub(super) fn packet(mail: Mail) -> Packet {
    match mail {
        Mail::To(index, stamp, message) => encode_to(&Envelope {
            index,
            stamp,
            message,
        }),
        Mail::From(index, stamp, message) => encode_from(&Envelope {
            index,
            stamp,
            message,
        }),
    }
}
