//! When a printed run agrees with its scenario: every line is the right one on the lines before it, all is at rest
//! behind them, the printed order is a merge of the site orders, and the report is that of the session in this order.
//! Where it doesn't, the first line at which this fails and the first reason. `specs/Agreement.antt` computes it over
//! printed lines that are read; `specs/Agreements.antt` says it in the field's words.
#![tactic(auto)]

mod laws;
mod verdict;
mod wrong_rules;

pub use laws::{a_verdict_names_the_first_line, a_yes_is_agreement};
pub use verdict::{Verdict, What};
pub use wrong_rules::{wrong_cycles, wrong_orders, wrong_reasons, wrong_rest, wrong_verdicts};
