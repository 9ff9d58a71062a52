//! Numbers in their ranges.
ghost use Rattle.std.specs.Prelude.{◌≡◌};
ghost use Rattle.trace_lines.specs.Reading as reading;

use mdb_base::{Key, SiteId, Tx};

/// The transaction of this number, 1 to 1,024.
pub fn tx_of(number: u64) -> Option<Tx>
    ensures { result ≡ reading.tx_of number }
{
    match number {
        1..=1024 => Some(Tx(number as u32)),
        _ => None,
    }
}

/// The site of this number, 1 to 8.
pub fn site_of(number: u64) -> Option<SiteId>
    ensures { result ≡ reading.site_of number }
{
    match number {
        1..=8 => Some(SiteId(number as u8)),
        _ => None,
    }
}

/// The key of this number, 0 to 65,535.
pub fn key_of(number: u64) -> Option<Key>
    ensures { result ≡ reading.key_of number }
{
    match number {
        0..=65_535 => Some(Key(number as u16)),
        _ => None,
    }
}

/// A number of 32 bits.
pub fn small_of(number: u64) -> Option<u32>
    ensures { result ≡ reading.small_of number }
{
    u32::try_from(number).ok()
}

/// A number that is at most this.
pub fn at_most(most: u64, number: u64) -> Option<u64>
    ensures { result ≡ reading.at_most most number }
{
    if number <= most { Some(number) } else { None }
}

/// The actor of this number: 0 is the coordinator, and 1 to 8 are the sites.
pub fn actor_of(number: u64) -> Option<u8>
    ensures { result ≡ reading.at_most 8 number }
{
    match number {
        0..=8 => Some(number as u8),
        _ => None,
    }
}

/// A count of disk calls, 0 to 1,000.
pub fn calls_of(number: u64) -> Option<u32>
    ensures { result ≡ reading.at_most 1000 number }
{
    match number {
        0..=1000 => Some(number as u32),
        _ => None,
    }
}
