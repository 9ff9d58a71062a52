//! What is to be made.

/// A scenario to be made.
#[derive(Clone, Copy, Debug, PartialEq, Eq)]
pub struct Making {
    /// What the generator begins from.
    pub number: u64,
    /// How many sites, 1 to 8.
    pub sites: u8,
    /// How many transactions, 1 to 1,024.
    pub transactions: u32,
}
