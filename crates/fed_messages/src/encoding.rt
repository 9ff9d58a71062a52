//! Envelopes as packets.
ghost use Rattle.std.specs.Prelude.{◌≡◌, ◌+◌, ◌≤◌, ◌∷◌, ◌++◌, length};
ghost use Rattle.byte_numbers.specs.Numbers.{number};
ghost use Rattle.field_bytes.specs.Fields.{tid_bytes, decision_bytes};
ghost use Rattle.fed_messages.specs.Packets.{envelope_bytes, packet_of};
ghost use Rattle.fed_messages.specs.Spelling.{act_bytes, operation_bytes, to_site_bytes, why_bytes, reply_bytes, vote_bytes, from_site_bytes};

use crate::text::Text;
use crate::{Envelope, Packet};
use fed_rules::{FromSite, ToSite};
use mdb_base::{PlainAct, Reply, Tid, Why};
use presumptions::Decision;

fn put_tid(text: &mut Text, tid: Tid)
    requires { length text.old + 5 ≤ 40 }
    ensures bytes { text.new ≡ text.old ++ tid_bytes tid }
    ensures size { length text.new ≡ length text.old + 5 }
{
    text.put_u32(tid.tx.0);
    text.put_u8(tid.attempt);
}

fn put_decision(text: &mut Text, decision: Decision)
    requires { length text.old + 1 ≤ 40 }
    ensures bytes { text.new ≡ text.old ++ decision_bytes decision }
    ensures size { length text.new ≡ length text.old + 1 }
{
    match decision {
        Decision::Commit => text.push(1),
        Decision::Abort => text.push(2),
    }
}

/// Writes a first byte and an attempt.
fn put_by(text: &mut Text, kind: u8, tid: Tid)
    requires { length text.old + 6 ≤ 40 }
    ensures bytes { text.new ≡ text.old ++ kind ∷ tid_bytes tid }
    ensures size { length text.new ≡ length text.old + 6 }
{
    text.push(kind);
    put_tid(text, tid);
}

/// Writes a first byte and an operation's attempt, epoch and count.
fn put_operation(text: &mut Text, kind: u8, tid: Tid, epoch: u32, n: u8)
    requires { length text.old + 11 ≤ 40 }
    ensures bytes { text.new ≡ text.old ++ kind ∷ operation_bytes tid epoch n }
    ensures size { length text.new ≡ length text.old + 11 }
{
    put_by(text, kind, tid);
    text.put_u32(epoch);
    text.put_u8(n);
}

fn put_act(text: &mut Text, act: PlainAct)
    requires { length text.old + 11 ≤ 40 }
    ensures bytes { text.new ≡ text.old ++ act_bytes act }
    ensures size { length text.new ≤ length text.old + 11 }
{
    match act {
        PlainAct::Read(key) => {
            text.push(1);
            text.put_u16(key.0);
        }
        PlainAct::Write(key, value) => {
            text.push(2);
            text.put_u16(key.0);
            text.put_u64(value);
        }
    }
}

fn put_to_site(text: &mut Text, message: ToSite)
    requires { length text.old + 22 ≤ 40 }
    ensures bytes { text.new ≡ text.old ++ to_site_bytes message }
    ensures size { length text.new ≤ length text.old + 22 }
{
    match message {
        ToSite::Work { tid, epoch, n, act } => {
            put_operation(text, 1, tid, epoch, n);
            put_act(text, act);
        }
        ToSite::Take { tid, epoch, n } => put_operation(text, 2, tid, epoch, n),
        ToSite::Prepare { tid, epoch, n } => put_operation(text, 3, tid, epoch, n),
        ToSite::Decide { tid, decision } => {
            put_by(text, 4, tid);
            put_decision(text, decision);
        }
    }
}

fn put_why(text: &mut Text, why: Why)
    requires { length text.old + 8 ≤ 40 }
    ensures bytes { text.new ≡ text.old ++ why_bytes why }
    ensures size { length text.new ≤ length text.old + 8 }
{
    match why {
        Why::Die { by } => put_by(text, 4, by),
        Why::Late { by } => put_by(text, 5, by),
        Why::Invalid { by, key } => {
            put_by(text, 6, by);
            text.put_u16(key.0);
        }
        Why::TicketMoved { by } => put_by(text, 7, by),
    }
}

/// Writes a first byte and a number in eight bytes.
fn put_tagged(text: &mut Text, kind: u8, x: u64)
    requires { length text.old + 9 ≤ 40 }
    ensures bytes { text.new ≡ text.old ++ kind ∷ number 8 x }
    ensures size { length text.new ≡ length text.old + 9 }
{
    text.push(kind);
    text.put_u64(x);
}

fn put_reply(text: &mut Text, reply: Reply)
    requires { length text.old + 9 ≤ 40 }
    ensures bytes { text.new ≡ text.old ++ reply_bytes reply }
    ensures size { length text.new ≤ length text.old + 9 }
{
    match reply {
        Reply::Done => text.push(0),
        Reply::Value(value) => put_tagged(text, 1, value),
        Reply::Ticket(ticket) => put_tagged(text, 2, ticket),
        Reply::Wait { by } => put_by(text, 3, by),
        Reply::Refused(why) => put_why(text, why),
        Reply::Unknown => text.push(8),
    }
}

fn put_vote(text: &mut Text, yes: Option<u64>)
    requires { length text.old + 9 ≤ 40 }
    ensures bytes { text.new ≡ text.old ++ vote_bytes yes }
    ensures size { length text.new ≤ length text.old + 9 }
{
    match yes {
        None => text.push(0),
        Some(ticket) => put_tagged(text, 1, ticket),
    }
}

fn put_from_site(text: &mut Text, message: FromSite)
    requires { length text.old + 20 ≤ 40 }
    ensures bytes { text.new ≡ text.old ++ from_site_bytes message }
    ensures size { length text.new ≤ length text.old + 20 }
{
    match message {
        FromSite::Did {
            tid,
            epoch,
            n,
            reply,
        } => {
            put_operation(text, 1, tid, epoch, n);
            put_reply(text, reply);
        }
        FromSite::Vote { tid, yes } => {
            put_by(text, 2, tid);
            put_vote(text, yes);
        }
        FromSite::Ack { tid } => put_by(text, 3, tid),
        FromSite::Inquiry { tid } => put_by(text, 4, tid),
    }
}

/// The packet that spells the envelope, at most 34 bytes of it.
pub fn encode_to(e: &Envelope<ToSite>) -> Packet
    ensures spelled { result ≡ packet_of (envelope_bytes to_site_bytes e.now) }
    ensures longest { result.len ≤ 34 }
{
    let mut text = Text::new();
    text.put_u32(e.index);
    text.put_u64(e.stamp);
    put_to_site(&mut text, e.message);
    text.finish()
}

/// The packet that spells the envelope, at most 32 bytes of it.
pub fn encode_from(e: &Envelope<FromSite>) -> Packet
    ensures spelled { result ≡ packet_of (envelope_bytes from_site_bytes e.now) }
    ensures longest { result.len ≤ 32 }
{
    let mut text = Text::new();
    text.put_u32(e.index);
    text.put_u64(e.stamp);
    put_from_site(&mut text, e.message);
    text.finish()
}
