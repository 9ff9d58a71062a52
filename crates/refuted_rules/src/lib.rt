//! Rules that look right and aren't: by each of them some story breaks a law that holds of the rules themselves. No crate stands on this one.
//! Each function here does nothing. Its contract names the law and the wrong rule.
#![tactic(auto)]

mod wrong_rules;

pub use wrong_rules::{
    wrong_bounds, wrong_closings, wrong_commits, wrong_policies, wrong_ranking, wrong_records,
    wrong_rows, wrong_sites, wrong_sums, wrong_survival,
};
