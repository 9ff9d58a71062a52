//! Tests of journals with bytes from outside: the frames and the records of `docs/FORMATS.md`. They use public calls
//! alone, so they stand in a crate of their own.
#![tactic(auto)]

#[cfg(test)]
mod coord_records;
#[cfg(test)]
mod frames;
#[cfg(test)]
mod site_records;
