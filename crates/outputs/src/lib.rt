//! What the outputs of all commands of the program have in common: what is to be put, with lines in it and with the disk that failed, and which
//! records the nine disks of a world hold meanwhile.
#![tactic(auto)]

mod output;

pub use output::{Output, broken, put_lines};
