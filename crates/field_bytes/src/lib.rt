//! The fields that records and messages share, as bytes: attempts and decisions. The formats are this project's profile.
#![tactic(auto)]

ghost use Rattle.std.specs.Prelude.{◌≡◌};
ghost use Rattle.byte_numbers.specs.Numbers.{Gives};
ghost use Rattle.field_bytes.specs.Fields as field;

use byte_numbers::{u8_at, u32_at};
use mdb_base::{Tid, Tx};
use presumptions::Decision;

/// The attempt at the front, its transaction 1 to 1,024 and its number 0 to 31, and the bytes behind it.
#[tactic(auto, unfolding(crate::specs::Fields::tid_at))]
pub fn tid_at(bytes: &[u8]) -> Option<(Tid, &[u8])>
    ensures { Gives result (field.tid_at bytes.now) }
{
    let (tx, rest) = u32_at(bytes)?;
    let (attempt, rest) = u8_at(rest)?;
    if 1 <= tx && tx <= 1024 && attempt < 32 {
        let tid = Tid {
            tx: Tx(tx),
            attempt,
        };
        Some((tid, rest))
    } else {
        None
    }
}

/// The decision at the front, and the bytes behind it.
#[tactic(auto, unfolding(crate::specs::Fields::decision_at))]
pub fn decision_at(bytes: &[u8]) -> Option<(Decision, &[u8])>
    ensures { Gives result (field.decision_at bytes.now) }
{
    let (kind, rest) = u8_at(bytes)?;
    match kind {
        1 => Some((Decision::Commit, rest)),
        2 => Some((Decision::Abort, rest)),
        _ => None,
    }
}
