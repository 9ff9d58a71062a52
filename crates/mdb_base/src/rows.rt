//! Rows of a site.
ghost use Rattle.std.specs.Prelude.{◌≡◌};
ghost use Rattle.mdb_base.specs.declared.names.Key.{Key};
ghost use Rattle.mdb_base.specs.Rows.{HaveOwnKeys, value_in};

use crate::names::{Key, SiteId};
use crate::rising::{Keyed, Rising};

/// A row: a key with its value.
#[derive(Clone, Copy, Debug, PartialEq, Eq)]
pub struct Put {
    pub key: Key,
    pub value: u64,
}

impl Keyed for Put {
    ghost key = { λ put. put.key.0 };
}

/// The rows of one site.
#[derive(Drop)]
pub struct SiteRows {
    pub site: SiteId,
    pub rows: Rising<Put>,
}

/// These rows, each with a key of its own, by rising key. It takes no memory.
pub fn sort_rows(mut rows: Vec<Put>) -> Rising<Put>
    requires { HaveOwnKeys rows.items }
    ensures { (key : Key) → value_in result key ≡ value_in rows.items key }
{
    rows.sort_unstable_by_key(|row| row.key.0);
    Rising::of(rows)
}
