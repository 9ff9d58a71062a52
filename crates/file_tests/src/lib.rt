//! Tests of journals in files: what a disk leaves in its file where calls fail or it is cut off, folders of the
//! system, and stores. They use public calls alone, so they stand in a crate of their own.
#![tactic(auto)]

#[cfg(test)]
mod disks;
#[cfg(test)]
mod failing_files;
#[cfg(test)]
mod folders;
#[cfg(test)]
mod stores;
