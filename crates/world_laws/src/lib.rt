//! Laws of every story that a world rests on: whom messages are sent to and about what, and how many a line sends.
#![tactic(auto)]

mod messages;

pub use messages::{
    messages_are_of_declared_sites, messages_to_sites_are_of_begun_attempts,
    own_events_send_nothing,
};
