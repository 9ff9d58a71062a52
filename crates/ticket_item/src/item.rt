//! The published number, its owner and the holders.
ghost use Rattle.std.specs.Prelude.{◌≡◌, ◌+◌, ◌^◌, ◌<◌, ◌≤◌, true, false, not, ◌&&◌, ◌||◌, Some, IfOk, OnOk, if◌then◌else◌};
ghost use Rattle.mdb_base.specs.Names.{same_tid};
ghost use Rattle.ticket_item.specs.Item.{is_holder};

use crate::holders::{put_in, take_out};
use mdb_base::{Memory, Tid};
use std::alloc::Global;
use std::marker::Model;

/// The ticket of a site, seen as the published number, its owner, a finite set of holders, and the number of further holders for
/// whom there is room.
#[derive(Drop)]
pub struct TicketItem {
    published: u64,
    owner: Option<Tid>,
    holders: Vec<Tid>,
}

impl Model for TicketItem {
    ghost use Rattle.std.specs.Prelude.{◌-◌, vec_len};
    ghost use Rattle.std.specs.Vec.{vec_capacity};
    ghost use Rattle.ticket_item.specs.Item.{Item, IsByTid};

    ghost Value = { Item };

    ghost view = { λ t. record { published = t.published; owner = t.owner; holders = t.holders.items; spare = vec_capacity t.holders - vec_len t.holders } };

    ghost invariant = { λ t. IsByTid t.holders.items };
}

impl TicketItem {
    /// The ticket with this published number and its owner, and no holder.
    pub fn new(alloc: Global, published: u64, owner: Option<Tid>) -> Result<TicketItem, Memory>
        ensures published { IfOk result (λ item. item.published ≡ published) }
        ensures owner { IfOk result (λ item. item.owner ≡ owner) }
        ensures holders { IfOk result (λ item. (tid : Tid) → is_holder item tid ≡ false) }
    {
        Ok(TicketItem {
            published,
            owner,
            holders: Vec::new(alloc),
        })
    }

    /// Makes room for one further holder. The item keeps its allocator.
    pub fn reserve(&mut self, _alloc: Global) -> Result<(), Memory>
        ensures room { OnOk result (1 ≤ self.new.spare) }
        ensures kept_room { self.old.spare ≤ self.new.spare }
        ensures published { self.new.published ≡ self.old.published }
        ensures owner { self.new.owner ≡ self.old.owner }
        ensures holders { self.new.holders ≡ self.old.holders }
    {
        self.holders.reserve(1)?;
        Ok(())
    }

    /// The published number.
    pub fn peek(&self) -> u64
        ensures { result ≡ self.now.published }
    {
        self.published
    }

    /// The attempt that published it; none where no attempt did.
    pub fn owner(&self) -> Option<Tid>
        ensures { result ≡ self.now.owner }
    {
        self.owner
    }

    /// Makes the attempt a holder, and answers the number behind the published one.
    pub fn hold(&mut self, tid: Tid) -> u64
        requires room { 1 ≤ self.old.spare }
        requires free { is_holder self.old tid ≡ false }
        requires fits { self.old.published + 1 < 2 ^ 64 }
        ensures ticket { result ≡ self.old.published + 1 }
        ensures holders { (other : Tid) → is_holder self.new other ≡ (same_tid other tid || is_holder self.old other) }
        ensures room { self.new.spare + 1 ≡ self.old.spare }
        ensures published { self.new.published ≡ self.old.published }
        ensures owner { self.new.owner ≡ self.old.owner }
    {
        put_in(&mut self.holders, tid);
        self.published + 1
    }

    /// Publishes the holder's ticket: it holds no longer, and owns the published number.
    pub fn publish(&mut self, tid: Tid, ticket: u64)
        requires holder { is_holder self.old tid ≡ true }
        requires next { ticket ≡ self.old.published + 1 }
        ensures published { self.new.published ≡ ticket }
        ensures owner { self.new.owner ≡ Some tid }
        ensures holders { (other : Tid) → is_holder self.new other ≡ (not (same_tid other tid) && is_holder self.old other) }
        ensures room { self.new.spare ≡ self.old.spare + 1 }
    {
        take_out(&mut self.holders, tid);
        self.published = ticket;
        self.owner = Some(tid);
    }

    /// Takes a publishing back: the attempt is a holder again, and the number and its owner are those from before.
    pub fn withdraw(&mut self, tid: Tid, published: u64, owner: Option<Tid>)
        requires room { 1 ≤ self.old.spare }
        requires free { is_holder self.old tid ≡ false }
        ensures published { self.new.published ≡ published }
        ensures owner { self.new.owner ≡ owner }
        ensures holders { (other : Tid) → is_holder self.new other ≡ (same_tid other tid || is_holder self.old other) }
        ensures room { self.new.spare + 1 ≡ self.old.spare }
    {
        put_in(&mut self.holders, tid);
        self.published = published;
        self.owner = owner;
    }

    /// Takes the attempt out of the holders, where it is one.
    pub fn give_up(&mut self, tid: Tid)
        ensures holders { (other : Tid) → is_holder self.new other ≡ (not (same_tid other tid) && is_holder self.old other) }
        ensures room { self.new.spare ≡ self.old.spare + (if is_holder self.old tid then 1 else 0) }
        ensures published { self.new.published ≡ self.old.published }
        ensures owner { self.new.owner ≡ self.old.owner }
    {
        take_out(&mut self.holders, tid);
    }
}
