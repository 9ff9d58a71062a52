//! Tests of the four local engines by their public calls: a worked list of calls for each rule, with their answers.
#![tactic(auto)]

#[cfg(test)]
mod rows;
mod stage;
#[cfg(test)]
mod watched;
