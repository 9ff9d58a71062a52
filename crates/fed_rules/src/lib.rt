//! The rules of the federation: the plain types of events, answers, messages, records and lines, and in `specs/` the definitions
//! that every contract cites. There is no code here but types, and laws that show that the definitions mean what they say: each is
//! the contract of a function with an empty body.
#![tactic(auto)]

mod answers;
mod commands;
mod coordinator_laws;
mod copies;
mod disk_laws;
mod events;
mod messages;
mod records;
mod report;
mod runs;
mod scenario;
mod site_laws;
mod sums;

pub use answers::{Answer, Cause};
pub use commands::{Command, Line, Place, Stamped};
pub use coordinator_laws::counted_messages_are_about_known_attempts;
pub use disk_laws::{stops_keep_the_oldest, synced_records_survive};
pub use events::{CoordEvent, CoordStep, SiteEvent, SiteStep};
use mdb_base::{Few, FewRising, ListOf, SiteRows};
pub use messages::{Due, FromSite, Sent, ToSite};
pub use records::{CoordRecord, SiteRecord};
pub use report::{Outcome, Report, TxReads};
pub use runs::{Doubt, Kept, Sealed};
pub use scenario::{ItemLine, LinkLine, Scenario, SiteLine, StopLine, TxLine};
pub use site_laws::{each_line_is_asked_for, pasts_are_made_by_events};
pub use sums::{CommittedAttempt, CoordSum, DoubtfulSum, OpenAttempt, SiteSum};

/// Places of sent messages, in the order in which they are printed.
pub type Places = Few<Place>;

/// Lines in the order in which they were made.
pub type Lines = ListOf<Line>;

/// Stamped lines in the order of their stamps.
pub type StampedLines = ListOf<Stamped>;

/// Messages to sites by rising site.
pub type Sends = FewRising<Sent>;

/// The operations and Prepares that are outstanding, by rising site.
pub type Dues = FewRising<Due>;

/// Messages to one site in the order of sending.
pub type ToMessages = ListOf<ToSite>;

/// Messages from one site in the order of sending.
pub type FromMessages = ListOf<FromSite>;

/// Messages to sites in the order of sending.
pub type SentMessages = ListOf<Sent>;

/// Subtransactions in doubt by rising attempt.
pub type DoubtfulSums = ListOf<DoubtfulSum>;

/// Attempts without an End by rising attempt.
pub type OpenAttempts = ListOf<OpenAttempt>;

/// Committed attempts by rising attempt.
pub type CommittedAttempts = ListOf<CommittedAttempt>;

/// Commands in the order of their lines.
pub type Commands = ListOf<Command>;

/// Sites in the order of their lines.
pub type SiteLines = ListOf<SiteLine>;

/// First rows in the order of their lines.
pub type ItemLines = ListOf<ItemLine>;

/// Transactions in the order of their lines.
pub type TxLines = ListOf<TxLine>;

/// Fates of messages in the order of their lines.
pub type LinkLines = ListOf<LinkLine>;

/// Scripted stops in the order of their lines.
pub type StopLines = ListOf<StopLine>;

/// The reads of the members of an order, in that order.
pub type AllReads = ListOf<TxReads>;

/// The outcomes of global attempts by rising attempt.
pub type Outcomes = ListOf<Outcome>;

/// The tables of the sites by rising site.
pub type AllRows = ListOf<SiteRows>;
