//! Tests of the top call on whole inputs, by what it puts, its status and what it leaves on the disks. They use public calls alone, so they
//! stand in a crate of their own.
#![tactic(auto)]

#[cfg(test)]
mod tests;
