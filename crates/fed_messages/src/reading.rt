//! Reading messages from the front of bytes.
ghost use Rattle.std.specs.Prelude.{◌≡◌};
ghost use Rattle.byte_numbers.specs.Numbers.{Gives};
ghost use Rattle.fed_messages.specs.Reading as read;

use byte_numbers::{u8_at, u16_at, u32_at, u64_at};
use fed_rules::{FromSite, ToSite};
use field_bytes::{decision_at, tid_at};
use mdb_base::{Key, PlainAct, Reply, Tid, Why};

/// An operation's attempt, epoch and count.
#[derive(Clone, Copy)]
pub struct Operation {
    pub tid: Tid,
    pub epoch: u32,
    pub n: u8,
}

/// The act at the front, and the bytes behind it.
#[tactic(auto, unfolding(crate::specs::Reading::act_at, crate::specs::Reading::read_at, crate::specs::Reading::write_at))]
fn act_at(bytes: &[u8]) -> Option<(PlainAct, &[u8])>
    ensures { Gives result (read.act_at bytes.now) }
{
    let (kind, rest) = u8_at(bytes)?;
    match kind {
        1 => {
            let (key, rest) = u16_at(rest)?;
            Some((PlainAct::Read(Key(key)), rest))
        }
        2 => {
            let (key, rest) = u16_at(rest)?;
            let (value, rest) = u64_at(rest)?;
            Some((PlainAct::Write(Key(key), value), rest))
        }
        _ => None,
    }
}

/// The operation's attempt, epoch and count at the front, and the bytes behind them.
#[tactic(auto, unfolding(crate::specs::Reading::operation_at))]
fn operation_at(bytes: &[u8]) -> Option<(Operation, &[u8])>
    ensures { Gives result (read.operation_at bytes.now) }
{
    let (tid, rest) = tid_at(bytes)?;
    let (epoch, rest) = u32_at(rest)?;
    let (n, rest) = u8_at(rest)?;
    Some((Operation { tid, epoch, n }, rest))
}

/// The message to a site at the front, and the bytes behind it.
#[tactic(auto, unfolding(crate::specs::Reading::to_site_at, crate::specs::Reading::work_at, crate::specs::Reading::take_at, crate::specs::Reading::prepare_at, crate::specs::Reading::decide_at))]
pub fn to_site_at(bytes: &[u8]) -> Option<(ToSite, &[u8])>
    ensures { Gives result (read.to_site_at bytes.now) }
{
    let (kind, rest) = u8_at(bytes)?;
    match kind {
        1 => {
            let (Operation { tid, epoch, n }, rest) = operation_at(rest)?;
            let (act, rest) = act_at(rest)?;
            Some((ToSite::Work { tid, epoch, n, act }, rest))
        }
        2 => {
            let (Operation { tid, epoch, n }, rest) = operation_at(rest)?;
            Some((ToSite::Take { tid, epoch, n }, rest))
        }
        3 => {
            let (Operation { tid, epoch, n }, rest) = operation_at(rest)?;
            Some((ToSite::Prepare { tid, epoch, n }, rest))
        }
        4 => {
            let (tid, rest) = tid_at(rest)?;
            let (decision, rest) = decision_at(rest)?;
            Some((ToSite::Decide { tid, decision }, rest))
        }
        _ => None,
    }
}

/// The reply at the front, and the bytes behind it.
#[tactic(auto, unfolding(crate::specs::Reading::reply_at, crate::specs::Reading::value_at, crate::specs::Reading::ticket_at, crate::specs::Reading::by_at, crate::specs::Reading::nothing_at, crate::specs::Reading::invalid_at))]
fn reply_at(bytes: &[u8]) -> Option<(Reply, &[u8])>
    ensures { Gives result (read.reply_at bytes.now) }
{
    let (kind, rest) = u8_at(bytes)?;
    match kind {
        0 => Some((Reply::Done, rest)),
        1 => {
            let (value, rest) = u64_at(rest)?;
            Some((Reply::Value(value), rest))
        }
        2 => {
            let (ticket, rest) = u64_at(rest)?;
            Some((Reply::Ticket(ticket), rest))
        }
        3 => {
            let (by, rest) = tid_at(rest)?;
            Some((Reply::Wait { by }, rest))
        }
        4 => {
            let (by, rest) = tid_at(rest)?;
            Some((Reply::Refused(Why::Die { by }), rest))
        }
        5 => {
            let (by, rest) = tid_at(rest)?;
            Some((Reply::Refused(Why::Late { by }), rest))
        }
        6 => {
            let (by, rest) = tid_at(rest)?;
            let (key, rest) = u16_at(rest)?;
            Some((Reply::Refused(Why::Invalid { by, key: Key(key) }), rest))
        }
        7 => {
            let (by, rest) = tid_at(rest)?;
            Some((Reply::Refused(Why::TicketMoved { by }), rest))
        }
        8 => Some((Reply::Unknown, rest)),
        _ => None,
    }
}

/// The vote at the front, and the bytes behind it.
#[tactic(auto, unfolding(crate::specs::Reading::vote_at, crate::specs::Reading::nothing_at, crate::specs::Reading::yes_at))]
fn vote_at(bytes: &[u8]) -> Option<(Option<u64>, &[u8])>
    ensures { Gives result (read.vote_at bytes.now) }
{
    let (kind, rest) = u8_at(bytes)?;
    match kind {
        0 => Some((None, rest)),
        1 => {
            let (ticket, rest) = u64_at(rest)?;
            Some((Some(ticket), rest))
        }
        _ => None,
    }
}

/// The message from a site at the front, and the bytes behind it.
#[tactic(auto, unfolding(crate::specs::Reading::from_site_at, crate::specs::Reading::did_at, crate::specs::Reading::votes_at, crate::specs::Reading::by_at))]
pub fn from_site_at(bytes: &[u8]) -> Option<(FromSite, &[u8])>
    ensures { Gives result (read.from_site_at bytes.now) }
{
    let (kind, rest) = u8_at(bytes)?;
    match kind {
        1 => {
            let (Operation { tid, epoch, n }, rest) = operation_at(rest)?;
            let (reply, rest) = reply_at(rest)?;
            Some((
                FromSite::Did {
                    tid,
                    epoch,
                    n,
                    reply,
                },
                rest,
            ))
        }
        2 => {
            let (tid, rest) = tid_at(rest)?;
            let (yes, rest) = vote_at(rest)?;
            Some((FromSite::Vote { tid, yes }, rest))
        }
        3 => {
            let (tid, rest) = tid_at(rest)?;
            Some((FromSite::Ack { tid }, rest))
        }
        4 => {
            let (tid, rest) = tid_at(rest)?;
            Some((FromSite::Inquiry { tid }, rest))
        }
        _ => None,
    }
}
