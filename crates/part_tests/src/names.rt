//! The attempts and rows of the tests.
ghost use Rattle.std.specs.Prelude.{◌≡◌, IfOk, length};

use mdb_base::{Key, Memory, Put, Puts, SiteId, Tid, Tx};
use std::alloc::Global;

pub(super) const ONE: Tid = Tid {
    tx: Tx(1),
    attempt: 0,
};

pub(super) const TWO: Tid = Tid {
    tx: Tx(2),
    attempt: 0,
};

pub(super) const THREE: Tid = Tid {
    tx: Tx(3),
    attempt: 0,
};

pub(super) const SITE: SiteId = SiteId(1);

pub(super) const OTHER_SITE: SiteId = SiteId(2);

pub(super) const KEY: Key = Key(5);

pub(super) const fn row(value: u64) -> Put {
    Put { key: KEY, value }
}

/// The row of the key alone.
pub(super) fn one_row(alloc: Global, value: u64) -> Result<Puts, Memory>
    ensures { IfOk result (λ puts. length puts ≡ 1) }
{
    Ok(Puts::of(vec![in alloc; row(value)]?))
}
