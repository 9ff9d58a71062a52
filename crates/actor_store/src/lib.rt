//! The journal of an actor on its disk, with the trip that is set: each disk call may be the last one before a stop. Sites and the
//! coordinator differ in the format of their records alone.
#![tactic(auto)]

mod errors;
mod laws;
mod store;

pub use errors::StepErr;
pub use laws::a_new_store_is_that_of_an_empty_disk;
pub use store::{Break, SetTrip, Standing, Store};
