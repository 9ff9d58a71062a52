//! What `make` prints: a made scenario moves amounts between rows, so at rest its tables are worth what they began
//! with; each transaction that is done has one commit; and the line of a run that finished is told by the numbers of
//! its sites and transactions alone. Each law is the contract of a function that does nothing.
#![tactic(auto)]

mod made;
mod wrong_rules;

pub use made::{
    commits_are_counted, made_lines_are_fixed, made_summaries_are_fixed, made_totals_stay,
    moves_keep_worth, unchecked_journals_are_whole,
};
pub use wrong_rules::{wrong_counts, wrong_moves};
