//! Packets as envelopes.
ghost use Rattle.std.specs.Prelude.{◌≡◌, ◌<◌, ◌≤◌, Some, IfSome, IfNone, length, take};
ghost use Rattle.fed_rules.specs.declared.messages.FromSite.{FromSite};
ghost use Rattle.fed_rules.specs.declared.messages.ToSite.{ToSite};
ghost use Rattle.byte_numbers.specs.Numbers.{IsBytes};
ghost use Rattle.fed_messages.specs.Packets.{IsEnvelope, Spells, envelope_bytes};
ghost use Rattle.fed_messages.specs.Reading.{envelope_of, to_site_at as to_site_read, from_site_at as from_site_read};
ghost use Rattle.fed_messages.specs.Spelling.{IsToSite, IsFromSite, to_site_bytes, from_site_bytes};
ghost use Rattle.fed_messages.specs.declared.Envelope.{Envelope};

use crate::reading::{from_site_at, to_site_at};
use crate::{Envelope, Packet};
use byte_numbers::{u32_at, u64_at};
use fed_rules::{FromSite, ToSite};

/// The envelope to a site that is all of the bytes.
#[tactic(auto, unfolding(crate::specs::Reading::envelope_of))]
fn to_envelope(bytes: &[u8]) -> Option<Envelope<ToSite>>
    ensures value { result ≡ envelope_of to_site_read bytes.now }
    ensures bytes { IsBytes bytes.now }
{
    let (index, rest) = u32_at(bytes)?;
    let (stamp, rest) = u64_at(rest)?;
    let (message, rest) = to_site_at(rest)?;
    if rest.is_empty() {
        Some(Envelope {
            index,
            stamp,
            message,
        })
    } else {
        None
    }
}

/// The envelope from a site that is all of the bytes.
#[tactic(auto, unfolding(crate::specs::Reading::envelope_of))]
fn from_envelope(bytes: &[u8]) -> Option<Envelope<FromSite>>
    ensures value { result ≡ envelope_of from_site_read bytes.now }
    ensures bytes { IsBytes bytes.now }
{
    let (index, rest) = u32_at(bytes)?;
    let (stamp, rest) = u64_at(rest)?;
    let (message, rest) = from_site_at(rest)?;
    if rest.is_empty() {
        Some(Envelope {
            index,
            stamp,
            message,
        })
    } else {
        None
    }
}

/// The packet's first bytes, as many as its length says, where it has so many.
fn text_of(p: &Packet) -> Option<&[u8]>
    ensures text { IfSome result (λ text. text.now ≡ take p.now.len p.now.bytes) }
    ensures short { IfSome result (λ _. p.now.len ≤ length p.now.bytes) }
    ensures none { IfNone result (length p.now.bytes < p.now.len) }
{
    let len = p.len as usize;
    if len <= p.bytes.len() {
        Some(&p.bytes[..len])
    } else {
        None
    }
}

/// The envelope to a site that the packet spells, each byte of it; none exactly where it spells none.
pub fn decode_to(p: &Packet) -> Option<Envelope<ToSite>>
    ensures in_range { IfSome result (IsEnvelope IsToSite) }
    ensures spelled { IfSome result (λ e. Spells p.now (envelope_bytes to_site_bytes e)) }
    ensures only { (e : Envelope ToSite) → IsEnvelope IsToSite e → Spells p.now (envelope_bytes to_site_bytes e) → result ≡ Some e }
{
    to_envelope(text_of(p)?)
}

/// The envelope from a site that the packet spells, each byte of it; none exactly where it spells none.
pub fn decode_from(p: &Packet) -> Option<Envelope<FromSite>>
    ensures in_range { IfSome result (IsEnvelope IsFromSite) }
    ensures spelled { IfSome result (λ e. Spells p.now (envelope_bytes from_site_bytes e)) }
    ensures only { (e : Envelope FromSite) → IsEnvelope IsFromSite e → Spells p.now (envelope_bytes from_site_bytes e) → result ≡ Some e }
{
    from_envelope(text_of(p)?)
}
