//! Tests of the actors where no session of a federation comes: one goes on behind a failed disk call, and a coordinator is reopened beside the one
//! that went on. They use public calls alone, on disks in memory.
#![tactic(auto)]

#[cfg(test)]
mod coordinator;
#[cfg(test)]
mod coordinator_again;
#[cfg(test)]
mod coordinator_reopened;
#[cfg(test)]
mod site;
#[cfg(test)]
mod site_again;
