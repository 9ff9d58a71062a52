//! The book of transactions that a site's core keeps: how far each attempt of this epoch is, and of each local transaction how many
//! attempts were begun, which one is running, and which one is committed. Each call but a stop, a restart and a list of the live
//! attempts takes a time that doesn't grow with how many attempts are kept; the lists of local transactions are made longer where a
//! greater number comes.
#![tactic(auto)]

mod attempt_map;
mod book;
mod laws;
mod live_run;
mod local_map;
mod progress;

pub use book::SiteBook;
pub use laws::{
    the_book_follows_the_lines, the_book_knows_the_local_transactions,
    the_book_says_what_the_lines_say,
};
pub use live_run::LiveRun;
pub use progress::{Progress, Standing};
