//! What one line says.
use fed_rules::{Command, ItemLine, LinkLine, SiteLine, StopLine};
use mdb_base::{ListOf, SiteId, Step, Tx};

/// The steps of a transaction in the order of their words.
pub type Steps = ListOf<Step>;

/// What one line says, before it is compared with the lines before it.
#[derive(Drop)]
pub enum Entry {
    Site(SiteLine),
    Item(ItemLine),
    /// A transaction, local at its home or global where there is none, with at least one step.
    Transaction {
        tx: Tx,
        home: Option<SiteId>,
        steps: Steps,
    },
    Clients(u8),
    Turns(u32),
    Tries(u8),
    /// Whether tickets are taken by the conservative method.
    Policy(bool),
    Link(LinkLine),
    Stop(StopLine),
    /// All later lines are commands.
    Commands,
    Command(Command),
}
