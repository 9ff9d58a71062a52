//! Printed runs as text: what is read of a printed line, the report line by line, and the text before and behind the line `printed`.
//! `specs/Texts.antt` computes the verdict on a whole text.
#![tactic(auto)]

mod cutting;
mod due;
mod lines;
mod reading;
mod report;

pub use cutting::{Cut, cut_printed};
pub use lines::{FirstLine, first_line};
pub use reading::{Printed, read_printed};
pub use report::report_verdict;
