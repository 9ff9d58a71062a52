//! Tests of a world: sessions of sites and the coordinator on disks in memory, whole and with each disk call failing. They use public calls
//! alone, so they stand in a crate of their own.
#![tactic(auto)]

#[cfg(test)]
mod commands;
#[cfg(test)]
mod coord_hosts;
#[cfg(test)]
mod deeds;
#[cfg(test)]
mod drivers;
#[cfg(test)]
mod lines;
#[cfg(test)]
mod links;
#[cfg(test)]
mod locked_links;
#[cfg(test)]
mod marks;
#[cfg(test)]
mod playing;
#[cfg(test)]
mod rings;
#[cfg(test)]
mod site_hosts;
#[cfg(test)]
mod traces;
#[cfg(test)]
mod worlds;
