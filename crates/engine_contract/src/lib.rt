//! What a site asks of its local engine, whatever its rule: eleven calls, and the lists of engine lines that it stands for.
#![tactic(auto)]

mod alone;
mod engine;
mod seal_err;

pub use alone::{begin_again, finish, read_alone, seal_again};
pub use engine::LocalEngine;
pub use fed_rules::{Kept, Sealed};
pub use seal_err::SealErr;
