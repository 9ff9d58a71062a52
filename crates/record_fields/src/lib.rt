//! The fields of journal records as bytes: each is written behind other bytes without memory, and read exactly as it is spelled. The
//! formats are this project's profile.
#![tactic(auto)]

mod fields;
mod items;
mod laws;
mod lists;
mod named;
mod sums;

pub use fields::{
    engine_at, maybe_tid_at, protocol_at, put_decision, put_engine, put_maybe_tid, put_protocol,
    put_site, put_tid, site_at,
};
pub use items::{Item, counted, counted_items, items_size};
pub use laws::attempts_rise_by_their_numbers;
pub use lists::{
    list_at, participants_at, put_list, put_participants, put_tickets, put_writes, tickets_at,
    writes_at,
};
pub use sums::put_prepared;
