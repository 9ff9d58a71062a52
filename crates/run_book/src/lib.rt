//! What the engines keep of a site's runs. All four keep a book: its unended runs by attempt, the table, the ticket, and the numbers
//! handed out. Timestamp order and multiversion timestamp order (Bernstein, Hadzilacos, Goodman 1987) keep beside it who accessed each
//! key and who has taken the ticket, each run by its age, and are answered from that instead of a walk over the runs. What one engine
//! alone keeps, key by key, stands in its own crate.
#![tactic(auto)]

mod accesses;
mod book;
mod counters;
mod granted;
mod held_run;
mod key_ages;
mod laws;
mod rival;
mod row_list;
mod run_map;
mod takers;

pub use accesses::AccessAges;
pub use book::RunBook;
pub use counters::Counters;
pub use granted::Granted;
pub use held_run::HeldRun;
pub use key_ages::KeyAges;
pub use laws::{
    the_ages_answer_as_the_rules, the_ages_follow_the_lines, the_book_follows_the_lines,
};
pub use rival::Rival;
pub use takers::TicketAges;
