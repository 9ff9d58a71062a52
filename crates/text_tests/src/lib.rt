//! Tests of texts and messages: lines, which are read and printed, scenarios and commands, which are read, reports, which are printed, and
//! messages as bytes. They use public calls alone, so they stand in a crate of their own.
#![tactic(auto)]

#[cfg(test)]
mod fields;
#[cfg(test)]
mod lines;
#[cfg(test)]
mod lists;
#[cfg(test)]
mod made;
#[cfg(test)]
mod messages;
#[cfg(test)]
mod programs;
#[cfg(test)]
mod reports;
#[cfg(test)]
mod scenarios;
