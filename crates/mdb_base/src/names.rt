//! The names of sites, keys, transactions and attempts.
ghost use Rattle.std.proofs.Common.{rules};
ghost use Rattle.std.specs.Cmp.{partial_order_from_own_ties};
ghost use Rattle.std.specs.Cmp.Rules.{comparing};
ghost use Rattle.std.specs.Ordering.{as_partial_cmp, nat_cmp, on, then_cmp};

use crate::rising::Keyed;
use std::alloc::{AllocError, AllocFailed};
use std::cmp::Ordering;

/// The number of a site, 1 to 8.
#[derive(Clone, Copy, Debug, PartialEq, Eq, PartialOrd, Ord)]
pub struct SiteId(pub u8);

/// The key of a row, 0 to 65,535.
#[derive(Clone, Copy, Debug, PartialEq, Eq, PartialOrd, Ord)]
pub struct Key(pub u16);

/// The number of a transaction, 1 to 1,024. Local and global transactions share these numbers.
#[derive(Clone, Copy, Debug, PartialEq, Eq)]
pub struct Tx(pub u32);

/// A try of a transaction: the transaction, and how many attempts of it began before, 0 to 31.
#[derive(Clone, Copy, Debug, PartialEq, Eq)]
pub struct Tid {
    pub tx: Tx,
    pub attempt: u8,
}

// The orders of transactions and of attempts are written out, the greater first: a search in a tree asks at each key whether it is passed.
impl PartialOrd for Tx {
    ghost partial_cmp = { as_partial_cmp (on (λ tx. tx.0) nat_cmp) };

    ghost laws = { partial_order_from_own_ties (Prim.search (comparing, rules)) (Prim.search (comparing, rules)) };

    fn partial_cmp(&self, other: &Tx) -> Option<Ordering> {
        Some(self.cmp(other))
    }
}

impl Ord for Tx {
    ghost cmp = { on (λ tx. tx.0) nat_cmp };

    ghost total = { Prim.search (comparing, rules) };

    ghost matches_partial_cmp = { Prim.search (comparing, rules) };

    ghost matches_eq = { Prim.search (comparing, rules) };

    fn cmp(&self, other: &Tx) -> Ordering {
        if self.0 > other.0 {
            Ordering::Greater
        } else if self.0 == other.0 {
            Ordering::Equal
        } else {
            Ordering::Less
        }
    }
}

impl PartialOrd for Tid {
    ghost partial_cmp = { as_partial_cmp (then_cmp (on (λ tid. tid.tx.0) nat_cmp) (on (λ tid. tid.attempt) nat_cmp)) };

    ghost laws = { partial_order_from_own_ties (Prim.search (comparing, rules)) (Prim.search (comparing, rules)) };

    fn partial_cmp(&self, other: &Tid) -> Option<Ordering> {
        Some(self.cmp(other))
    }
}

impl Ord for Tid {
    ghost cmp = { then_cmp (on (λ tid. tid.tx.0) nat_cmp) (on (λ tid. tid.attempt) nat_cmp) };

    ghost total = { Prim.search (comparing, rules) };

    ghost matches_partial_cmp = { Prim.search (comparing, rules) };

    ghost matches_eq = { Prim.search (comparing, rules) };

    fn cmp(&self, other: &Tid) -> Ordering {
        if self.tx.0 > other.tx.0 {
            Ordering::Greater
        } else if self.tx.0 < other.tx.0 {
            Ordering::Less
        } else if self.attempt > other.attempt {
            Ordering::Greater
        } else if self.attempt == other.attempt {
            Ordering::Equal
        } else {
            Ordering::Less
        }
    }
}

/// Want of memory.
#[derive(Clone, Copy, Debug, PartialEq, Eq)]
pub struct Memory;

impl From<AllocError> for Memory {
    fn from(_: AllocError) -> Memory {
        Memory
    }
}

impl<T: Drop> From<AllocFailed<T>> for Memory {
    fn from(_: AllocFailed<T>) -> Memory {
        Memory
    }
}

/// The rule by which a site orders its transactions.
#[derive(Clone, Copy, Debug, PartialEq, Eq)]
pub enum Engine {
    /// Strict two-phase locking with wait-die (Bernstein, Hadzilacos, Goodman 1987).
    Locking,
    /// Strict timestamp order (the same book).
    Timestamp,
    /// Backward validation (Härder 1984).
    Validation,
    /// Multiversion timestamp order with strict writes (Bernstein, Hadzilacos, Goodman 1987).
    Multiversion,
}

/// What a scripted link does with one message.
#[derive(Clone, Copy, Debug, PartialEq, Eq)]
pub enum Fate {
    Pass,
    Drop,
    Twice,
    /// Delivered behind so many further messages, 1 to 64.
    Hold(u8),
}

/// The ticket that an attempt has at a site.
#[derive(Clone, Copy, Debug, PartialEq, Eq)]
pub struct SiteTicket {
    pub site: SiteId,
    pub ticket: u64,
}

impl Keyed for SiteTicket {
    ghost key = { λ ticket. ticket.site.0 };
}
