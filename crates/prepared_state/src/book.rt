//! The book and its calls.
ghost use Rattle.std.specs.Prelude.{◌≡◌, ◌+◌, ◌<◌, ◌≤◌, [], None, Some, length, slice_get, is_some, IfOk, OnOk, OnErr, if◌then◌else◌};
ghost use Rattle.mdb_base.specs.declared.names.Tid.{Tid};
ghost use Rattle.mdb_base.specs.Words.{inserted};
ghost use Rattle.prepared_state.specs.Book.{AreApart, IsByTid, doubt_about, others, stands_before};

use crate::places::{find, insert, take_out};
use fed_rules::Doubt;
use mdb_base::{Memory, Tid};
use std::alloc::Global;
use std::marker::Model;

/// The prepared transactions that a site is in doubt of, seen as a list of doubts by rising attempt, and the number of further ones
/// for which there is room.
#[derive(Drop)]
pub struct PreparedBook {
    doubts: Vec<Doubt>,
}

impl Model for PreparedBook {
    ghost use Rattle.std.specs.Prelude.{◌-◌, vec_len};
    ghost use Rattle.std.specs.Vec.{vec_capacity};
    ghost use Rattle.prepared_state.specs.Book.{Book, IsByTid};

    ghost Value = { Book };

    ghost view = { λ b. record { doubts = b.doubts.items; spare = vec_capacity b.doubts - vec_len b.doubts } };

    ghost invariant = { λ b. IsByTid b.doubts.items };
}

impl PreparedBook {
    /// A book without doubts.
    pub fn new(alloc: Global) -> Result<PreparedBook, Memory>
        ensures { IfOk result (λ book. book.doubts ≡ []) }
    {
        Ok(PreparedBook {
            doubts: Vec::new(alloc),
        })
    }

    /// Makes room for one further doubt. The book keeps its allocator.
    pub fn reserve(&mut self, _alloc: Global) -> Result<(), Memory>
        ensures room { OnOk result (1 ≤ self.new.spare) }
        ensures kept_room { self.old.spare ≤ self.new.spare }
        ensures doubts { self.new.doubts ≡ self.old.doubts }
    {
        self.doubts.reserve(1)?;
        Ok(())
    }

    /// How many doubts there are.
    pub fn len(&self) -> usize
        ensures count { result ≡ length self.now.doubts }
        ensures order { IsByTid self.now.doubts }
    {
        self.doubts.len()
    }

    /// The doubt at this place, counted from 0.
    pub fn at(&self, place: usize) -> &Doubt
        requires { place < length self.now.doubts }
        ensures { slice_get self.now.doubts place ≡ Some result.now }
    {
        &self.doubts[place]
    }

    /// Adds a doubt about an attempt that isn't listed.
    pub fn add(&mut self, doubt: Doubt)
        requires room { 1 ≤ self.old.spare }
        requires apart { doubt_about doubt.tid self.old.doubts ≡ None }
        ensures doubts { self.new.doubts ≡ inserted stands_before doubt self.old.doubts }
        ensures room { self.new.spare + 1 ≡ self.old.spare }
    {
        insert(&mut self.doubts, doubt);
    }

    /// The doubt about the attempt, if it is listed.
    pub fn doubtful(&self, tid: Tid) -> Option<Doubt>
        ensures { result ≡ doubt_about tid self.now.doubts }
    {
        match find(&self.doubts, tid) {
            Some(place) => Some(self.doubts[place]),
            None => None,
        }
    }

    /// Takes the doubt about the attempt out, and answers whether it was listed.
    pub fn settle(&mut self, tid: Tid) -> bool
        ensures listed { result ≡ is_some (doubt_about tid self.old.doubts) }
        ensures doubts { self.new.doubts ≡ others tid self.old.doubts }
        ensures room { self.new.spare ≡ self.old.spare + (if result then 1 else 0) }
    {
        take_out(&mut self.doubts, tid)
    }

    /// Makes these doubts, about different attempts, the whole book. Without memory the book stays as it was.
    pub fn restore(&mut self, alloc: Global, doubts: &[Doubt]) -> Result<(), Memory>
        requires { AreApart doubts.now }
        ensures doubts { OnOk result ((tid : Tid) → doubt_about tid self.new.doubts ≡ doubt_about tid doubts.now) }
        ensures count { OnOk result (length self.new.doubts ≡ length doubts.now) }
        ensures kept { OnErr result (self.new.doubts ≡ self.old.doubts) }
    {
        let mut listed = Vec::with_capacity(alloc, doubts.len())?;
        for doubt in doubts {
            insert(&mut listed, *doubt);
        }
        self.doubts = listed;
        Ok(())
    }
}
