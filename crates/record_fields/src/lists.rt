//! The lists of records behind their lengths: rows, participants and tickets, and the rising lists of a Checkpoint.
ghost use Rattle.std.specs.Prelude.{◌≡◌, ◌≤◌, ◌<◌, ◌+◌, ◌*◌, ◌^◌, ◌++◌, length, All};
ghost use Rattle.std.specs.Vec.{vec_capacity};
ghost use Rattle.mdb_base.specs.Rising.{IsRising};
ghost use Rattle.record_fields.specs.Items.{Reads, joined, rising_list};
ghost use Rattle.record_fields.specs.Named.{IsSite, writes, participants as all_participants, tickets as all_tickets};

use crate::items::{Item, items_of, put_items};
use byte_numbers::{DecodeErr, put_u8, put_u16, u8_at, u16_at};
use mdb_base::{ListOf, Puts, Tickets};
use presumptions::Participants;
use std::alloc::Global;

/// The rows at the front, by rising key behind their number in two bytes, and the bytes behind them.
pub fn writes_at(alloc: Global, bytes: &[u8]) -> Result<(Puts, &[u8]), DecodeErr>
    ensures { Reads (λ found. (found.0, found.1.now)) result (writes.reading bytes.now) }
{
    let (count, rest) = u16_at(bytes).ok_or(DecodeErr::NoValue)?;
    let (items, rest) = items_of(alloc, count as usize, rest)?;
    Ok((Puts::of(items), rest))
}

/// The participants at the front, by rising site behind their number in one byte, and the bytes behind them.
pub fn participants_at(alloc: Global, bytes: &[u8]) -> Result<(Participants, &[u8]), DecodeErr>
    ensures { Reads (λ found. (found.0, found.1.now)) result (all_participants.reading bytes.now) }
{
    let (count, rest) = u8_at(bytes).ok_or(DecodeErr::NoValue)?;
    let (items, rest) = items_of(alloc, count as usize, rest)?;
    Ok((Participants::of(items), rest))
}

/// The tickets at the front, by rising site behind their number in one byte, and the bytes behind them.
pub fn tickets_at(alloc: Global, bytes: &[u8]) -> Result<(Tickets, &[u8]), DecodeErr>
    ensures { Reads (λ found. (found.0, found.1.now)) result (all_tickets.reading bytes.now) }
{
    let (count, rest) = u8_at(bytes).ok_or(DecodeErr::NoValue)?;
    let (items, rest) = items_of(alloc, count as usize, rest)?;
    Ok((Tickets::of(items), rest))
}

/// The rising list at the front, behind its length in two bytes, and the bytes behind it.
pub fn list_at<T: Item>(alloc: Global, bytes: &[u8]) -> Result<(ListOf<T>, &[u8]), DecodeErr>
    ensures { Reads (λ found. (found.0, found.1.now)) result ((rising_list 2 T.number_of T.field).reading bytes.now) }
{
    let (count, rest) = u16_at(bytes).ok_or(DecodeErr::NoValue)?;
    let (items, rest) = items_of(alloc, count as usize, rest)?;
    Ok((ListOf::of(items), rest))
}

/// Writes rows behind their number in two bytes.
#[tactic(auto, using(crate::proofs::Sizes::rows_size))]
pub fn put_writes(out: &mut Vec<u8>, rows: &Puts)
    requires small { 10 * length rows.now < 2 ^ 16 }
    requires room { length out.old.items + (2 + 10 * length rows.now) ≤ vec_capacity out.old }
    ensures bytes { out.new.items ≡ out.old.items ++ writes.spelling rows.now }
    ensures size { length out.new.items ≡ length out.old.items + (2 + 10 * length rows.now) }
    ensures room { vec_capacity out.old ≤ vec_capacity out.new }
    ensures fits { writes.Fits rows.now }
{
    put_u16(out, rows.len() as u16);
    put_items(rows.as_slice(), out);
}

/// Writes participants behind their number in one byte.
#[tactic(auto, using(crate::proofs::Sizes::participants_size))]
pub fn put_participants(out: &mut Vec<u8>, participants: &Participants)
    requires in_range { All (λ participant. IsSite participant.site) participants.now }
    requires room { length out.old.items + (1 + 2 * length participants.now) ≤ vec_capacity out.old }
    ensures bytes { out.new.items ≡ out.old.items ++ all_participants.spelling participants.now }
    ensures size { length out.new.items ≡ length out.old.items + (1 + 2 * length participants.now) }
    ensures room { vec_capacity out.old ≤ vec_capacity out.new }
    ensures fits { all_participants.Fits participants.now }
{
    put_u8(out, participants.len() as u8);
    put_items(participants.as_slice(), out);
}

/// Writes tickets behind their number in one byte.
#[tactic(auto, using(crate::proofs::Sizes::tickets_size))]
pub fn put_tickets(out: &mut Vec<u8>, tickets: &Tickets)
    requires in_range { All (λ ticket. IsSite ticket.site) tickets.now }
    requires room { length out.old.items + (1 + 9 * length tickets.now) ≤ vec_capacity out.old }
    ensures bytes { out.new.items ≡ out.old.items ++ all_tickets.spelling tickets.now }
    ensures size { length out.new.items ≡ length out.old.items + (1 + 9 * length tickets.now) }
    ensures room { vec_capacity out.old ≤ vec_capacity out.new }
    ensures fits { all_tickets.Fits tickets.now }
{
    put_u8(out, tickets.len() as u8);
    put_items(tickets.as_slice(), out);
}

/// Writes a rising list behind its length in two bytes.
pub fn put_list<T: Item>(out: &mut Vec<u8>, items: &ListOf<T>)
    requires in_range { All T.in_range items.now }
    requires rising { IsRising T.number_of items.now }
    requires few { length items.now < 2 ^ 16 }
    requires small { length (joined T.field.spelling items.now) < 2 ^ 16 }
    requires room { length out.old.items + (2 + length (joined T.field.spelling items.now)) ≤ vec_capacity out.old }
    ensures bytes { out.new.items ≡ out.old.items ++ (rising_list 2 T.number_of T.field).spelling items.now }
    ensures size { length out.new.items ≡ length out.old.items + (2 + length (joined T.field.spelling items.now)) }
    ensures room { vec_capacity out.old ≤ vec_capacity out.new }
    ensures fits { (rising_list 2 T.number_of T.field).Fits items.now }
{
    put_u16(out, items.len() as u16);
    put_items(items.as_slice(), out);
}
