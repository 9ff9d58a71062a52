//! Tests of the parts of the actors, each once, with values from outside. They use public calls alone, so they stand
//! in a crate of their own.
#![tactic(auto)]

#[cfg(test)]
mod attempts;
#[cfg(test)]
mod graph;
#[cfg(test)]
mod names;
#[cfg(test)]
mod orders;
#[cfg(test)]
mod policies;
#[cfg(test)]
mod prepared;
#[cfg(test)]
mod protocols;
#[cfg(test)]
mod serial;
#[cfg(test)]
mod site_books;
#[cfg(test)]
mod tables;
#[cfg(test)]
mod tickets;
