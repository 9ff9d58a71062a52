//! The number of a key's last writer.
ghost use Rattle.std.specs.Prelude.{◌≡◌, nat_eq};
ghost use Rattle.std.specs.HashMap.{get};
ghost use Rattle.site_tables.specs.Numbers.{number_of};

use crate::versions::Version;
use std::collections::HashMap;

/// The number of the last writer of a key, or 0.
pub fn number(versions: &HashMap<u16, Version>, key: u16) -> u64
    ensures { result ≡ number_of (get nat_eq versions.now key) }
{
    match versions.get(&key) {
        Some(kept) => kept.number,
        None => 0,
    }
}
