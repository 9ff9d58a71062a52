//! Messages between the coordinator and the sites, as packets of bytes. The format is this project's profile.
#![tactic(auto)]

mod decoding;
mod encoding;
mod reading;
mod text;

pub use decoding::{decode_from, decode_to};
pub use encoding::{encode_from, encode_to};
pub use fed_rules::{FromSite, ToSite};

/// A message with the number of its packet and its stamp (Lamport 1978).
#[derive(Clone, Copy)]
pub struct Envelope<M> {
    pub index: u32,
    pub stamp: u64,
    pub message: M,
}

/// What goes over a wire: the first `len` bytes spell an envelope, and the others are 0.
#[derive(Clone, Copy, Debug, PartialEq, Eq)]
pub struct Packet {
    pub len: u8,
    pub bytes: [u8; 40],
}
