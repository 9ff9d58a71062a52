//! Names and variants as bytes. Each writer needs room behind the other bytes and takes no memory.
ghost use Rattle.std.specs.Prelude.{◌≡◌, ◌≤◌, ◌+◌, ◌++◌, length};
ghost use Rattle.std.specs.Vec.{vec_capacity};
ghost use Rattle.byte_numbers.specs.Numbers.{Gives};
ghost use Rattle.field_bytes.specs.Fields.{IsTid, tid_bytes, decision_bytes};
ghost use Rattle.record_fields.specs.Named.{a_site, an_engine, a_protocol, a_tid};
ghost use Rattle.record_fields.specs.Sums.{maybe};

use byte_numbers::{put_u8, put_u32, u8_at};
use field_bytes::tid_at;
use mdb_base::{Engine, SiteId, Tid};
use presumptions::{Decision, Protocol};

/// The site at the front, 1 to 8, and the bytes behind it.
pub fn site_at(bytes: &[u8]) -> Option<(SiteId, &[u8])>
    ensures { Gives result (a_site.reading bytes.now) }
{
    let (site, rest) = u8_at(bytes)?;
    if 1 <= site && site <= 8 {
        Some((SiteId(site), rest))
    } else {
        None
    }
}

/// The engine at the front, locking 1, timestamp 2, validation 3 and multiversion 4, and the bytes behind it.
pub fn engine_at(bytes: &[u8]) -> Option<(Engine, &[u8])>
    ensures { Gives result (an_engine.reading bytes.now) }
{
    let (code, rest) = u8_at(bytes)?;
    match code {
        1 => Some((Engine::Locking, rest)),
        2 => Some((Engine::Timestamp, rest)),
        3 => Some((Engine::Validation, rest)),
        4 => Some((Engine::Multiversion, rest)),
        _ => None,
    }
}

/// The protocol at the front, presumed nothing 1, abort 2 and commit 3, and the bytes behind it.
pub fn protocol_at(bytes: &[u8]) -> Option<(Protocol, &[u8])>
    ensures { Gives result (a_protocol.reading bytes.now) }
{
    let (code, rest) = u8_at(bytes)?;
    match code {
        1 => Some((Protocol::Nothing, rest)),
        2 => Some((Protocol::Abort, rest)),
        3 => Some((Protocol::Commit, rest)),
        _ => None,
    }
}

/// What may be an attempt at the front, 0 for none or 1 and the attempt, and the bytes behind it.
pub fn maybe_tid_at(bytes: &[u8]) -> Option<(Option<Tid>, &[u8])>
    ensures { Gives result ((maybe a_tid).reading bytes.now) }
{
    let (flag, rest) = u8_at(bytes)?;
    match flag {
        0 => Some((None, rest)),
        1 => {
            let (tid, rest) = tid_at(rest)?;
            Some((Some(tid), rest))
        }
        _ => None,
    }
}

/// Writes a site in one byte.
pub fn put_site(out: &mut Vec<u8>, site: SiteId)
    requires { length out.old.items + 1 ≤ vec_capacity out.old }
    ensures bytes { out.new.items ≡ out.old.items ++ a_site.spelling site }
    ensures size { length out.new.items ≡ length out.old.items + 1 }
    ensures room { vec_capacity out.old ≤ vec_capacity out.new }
{
    put_u8(out, site.0);
}

/// Writes an engine in one byte.
pub fn put_engine(out: &mut Vec<u8>, engine: Engine)
    requires { length out.old.items + 1 ≤ vec_capacity out.old }
    ensures bytes { out.new.items ≡ out.old.items ++ an_engine.spelling engine }
    ensures size { length out.new.items ≡ length out.old.items + 1 }
    ensures room { vec_capacity out.old ≤ vec_capacity out.new }
{
    match engine {
        Engine::Locking => put_u8(out, 1),
        Engine::Timestamp => put_u8(out, 2),
        Engine::Validation => put_u8(out, 3),
        Engine::Multiversion => put_u8(out, 4),
    }
}

/// Writes a protocol in one byte.
pub fn put_protocol(out: &mut Vec<u8>, protocol: Protocol)
    requires { length out.old.items + 1 ≤ vec_capacity out.old }
    ensures bytes { out.new.items ≡ out.old.items ++ a_protocol.spelling protocol }
    ensures size { length out.new.items ≡ length out.old.items + 1 }
    ensures room { vec_capacity out.old ≤ vec_capacity out.new }
{
    match protocol {
        Protocol::Nothing => put_u8(out, 1),
        Protocol::Abort => put_u8(out, 2),
        Protocol::Commit => put_u8(out, 3),
    }
}

/// Writes an attempt, its transaction in four bytes and its number in one.
pub fn put_tid(out: &mut Vec<u8>, tid: Tid)
    requires { length out.old.items + 5 ≤ vec_capacity out.old }
    ensures bytes { out.new.items ≡ out.old.items ++ tid_bytes tid }
    ensures size { length out.new.items ≡ length out.old.items + 5 }
    ensures room { vec_capacity out.old ≤ vec_capacity out.new }
{
    put_u32(out, tid.tx.0);
    put_u8(out, tid.attempt);
}

/// Writes a decision in one byte, commit 1 and abort 2.
pub fn put_decision(out: &mut Vec<u8>, decision: Decision)
    requires { length out.old.items + 1 ≤ vec_capacity out.old }
    ensures bytes { out.new.items ≡ out.old.items ++ decision_bytes decision }
    ensures size { length out.new.items ≡ length out.old.items + 1 }
    ensures room { vec_capacity out.old ≤ vec_capacity out.new }
{
    match decision {
        Decision::Commit => put_u8(out, 1),
        Decision::Abort => put_u8(out, 2),
    }
}

/// Writes what may be an attempt: 0 for none, or 1 and the attempt.
pub fn put_maybe_tid(out: &mut Vec<u8>, tid: Option<Tid>)
    requires { length out.old.items + length ((maybe a_tid).spelling tid) ≤ vec_capacity out.old }
    ensures bytes { out.new.items ≡ out.old.items ++ (maybe a_tid).spelling tid }
    ensures size { length out.new.items ≡ length out.old.items + length ((maybe a_tid).spelling tid) }
    ensures room { vec_capacity out.old ≤ vec_capacity out.new }
{
    match tid {
        None => put_u8(out, 0),
        Some(tid) => {
            put_u8(out, 1);
            put_tid(out, tid);
        }
    }
}
