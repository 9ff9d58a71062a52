//! The places of what the coordinator's host sent last.
ghost use Rattle.std.specs.Prelude.{◌≡◌, slice_get};
ghost use Rattle.fed_hosts.specs.CoordSends.{arms_a_stop, last_sends, sends_of};

use fed_rules::{Command, Place, Stamped};

/// Whether the line at this place, where there is one, arms a stop.
fn arms_a_stop(lines: &[Stamped], place: usize) -> bool
    ensures { result ≡ arms_a_stop (slice_get lines.now place) }
{
    match lines.get(place) {
        Some(stamped) => match stamped.line.command {
            Command::Trip { .. } => true,
            _ => false,
        },
        None => false,
    }
}

/// The places of what the line at this place sends, none where there is no line.
fn sends_of(lines: &[Stamped], place: usize) -> &[Place]
    ensures { result.now ≡ sends_of (slice_get lines.now place) }
{
    match lines.get(place) {
        Some(stamped) => stamped.line.sends.as_slice(),
        None => &[],
    }
}

/// The places of what the last line sends, or of what the one before it sends where the last one arms a stop.
pub(crate) fn last_sends(lines: &[Stamped]) -> &[Place]
    ensures { result.now ≡ last_sends lines.now }
{
    let last = lines.len().saturating_sub(1);
    if arms_a_stop(lines, last) {
        sends_of(lines, lines.len().saturating_sub(2))
    } else {
        sends_of(lines, last)
    }
}
