//! A run with what it was granted.
ghost use Rattle.std.specs.Prelude.{◌≡◌, ◌+◌, ◌≤◌, [], ◌∷◌, Some, None, OnOk, IfOk, OnErr, reverse, is_some};
ghost use Rattle.fed_rules.specs.Runs.{begun, number, puts_of, restored};
ghost use Rattle.fed_rules.specs.Replies.{age_of, has_read, has_written};
ghost use Rattle.run_book.specs.Held.{own_write};
ghost use Rattle.run_book.specs.Rivals.{rival_by};
ghost use Rattle.run_book.specs.Tables.{writes_in, promised_by, with_writes};

use crate::counters::Counters;
use crate::granted::{
    Granted, any_reads, any_writes, count_writes, granted_writes, install_writes, last_write,
};
use crate::rival::Rival;
use crate::row_list::last_writes;
use fed_rules::Kept;
use mdb_base::{Key, Memory, Puts, Tid};
use site_tables::Tables;
use std::alloc::Global;
use std::marker::Model;

/// For how many accesses there is room from the first one on.
const FIRST_ROOM: usize = 8;

/// A run, with its granted accesses, the oldest first, and the counters that were noted at it.
#[derive(Drop)]
pub struct HeldRun {
    tid: Tid,
    age: u64,
    sealed: Option<u64>,
    ticket: Option<u64>,
    acts: Vec<Granted>,
    counters: Counters,
}

impl Model for HeldRun {
    ghost use Rattle.std.specs.Prelude.{reverse};
    ghost use Rattle.run_book.specs.Held.{Held};

    ghost Value = { Held };

    ghost view = { λ h. record {
      run = record { tid = h.tid; age = h.age; sealed = h.sealed; ticket = h.ticket; acts = reverse h.acts.items };
      counters = h.counters;
    } };
}

impl HeldRun {
    /// A run that begins.
    pub fn begun(alloc: Global, tid: Tid, age: u64, counters: Counters) -> Self
        ensures { result ≡ record { run = begun tid age; counters = counters } }
    {
        HeldRun {
            tid,
            age,
            sealed: None,
            ticket: None,
            acts: Vec::new(alloc),
            counters,
        }
    }

    /// A run of a transaction in doubt, as a restart finds it.
    pub fn restored(alloc: Global, kept: &Kept, counters: Counters) -> Result<Self, Memory>
        ensures { IfOk result (λ held. held ≡ record { run = restored kept.now; counters = counters }) }
    {
        Ok(HeldRun {
            tid: kept.tid,
            age: kept.number,
            sealed: Some(kept.number),
            ticket: Some(kept.ticket),
            acts: granted_writes(alloc, kept.writes.as_slice())?,
            counters,
        })
    }

    /// Its attempt.
    pub fn tid(&self) -> Tid
        ensures { result ≡ self.now.run.tid }
    {
        self.tid
    }

    /// The number that it drew at its begin, or of a restored one its serial number.
    pub fn age(&self) -> u64
        ensures { result ≡ self.now.run.age }
    {
        self.age
    }

    /// Its serial number, once it is sealed.
    pub fn sealed(&self) -> Option<u64>
        ensures { result ≡ self.now.run.sealed }
    {
        self.sealed
    }

    /// Its serial number, or 0.
    pub fn number(&self) -> u64
        ensures { result ≡ number self.now.run }
    {
        self.sealed.unwrap_or(0)
    }

    /// Its ticket, once it has taken one.
    pub fn ticket(&self) -> Option<u64>
        ensures { result ≡ self.now.run.ticket }
    {
        self.ticket
    }

    /// The counters that were noted at it.
    pub fn counters(&self) -> Counters
        ensures { result ≡ self.now.counters }
    {
        self.counters
    }

    /// Its granted accesses, the oldest first.
    pub fn accesses(&self) -> &[Granted]
        ensures { reverse result.now ≡ self.now.run.acts }
    {
        self.acts.as_slice()
    }

    /// It by its age.
    pub fn by_age(&self) -> Rival
        ensures { result ≡ rival_by age_of self.now.run }
    {
        Rival {
            tid: self.tid,
            rank: self.age,
        }
    }

    /// Whether it has a granted read of the key.
    #[tactic(auto, using(crate::proofs::Words::list_any_turned))]
    pub fn has_read(&self, key: Key) -> bool
        ensures { result ≡ has_read key self.now.run }
    {
        any_reads(self.acts.as_slice(), key)
    }

    /// Whether it has a granted write of the key.
    #[tactic(auto, using(crate::proofs::Words::list_any_turned))]
    pub fn has_written(&self, key: Key) -> bool
        ensures { result ≡ has_written key self.now.run }
    {
        any_writes(self.acts.as_slice(), key)
    }

    /// The value of its last write of the key.
    pub fn own_value(&self, key: Key) -> Option<u64>
        ensures { result ≡ own_write key self.now.run.acts }
    {
        last_write(self.acts.as_slice(), key)
    }

    /// Its last write of each key, by rising key.
    pub fn puts(&self, alloc: Global) -> Result<Puts, Memory>
        ensures { IfOk result (λ puts. puts ≡ puts_of self.now.run.acts) }
    {
        last_writes(alloc, self.acts.as_slice())
    }

    /// How many writes it was granted.
    pub fn count_writes(&self) -> usize
        ensures { result ≡ writes_in self.now.run.acts }
    {
        count_writes(self.acts.as_slice())
    }

    /// How many writes it may install: none before it is sealed.
    pub(crate) fn promised(&self) -> usize
        ensures { result ≡ promised_by self.now }
    {
        if self.sealed.is_some() {
            self.count_writes()
        } else {
            0
        }
    }

    /// Writes its last write of each key to the table by its serial number. It takes no memory.
    pub(crate) fn install(&self, tables: &mut Tables)
        requires { writes_in self.now.run.acts ≤ tables.old.spare }
        ensures written { tables.new.versions ≡ with_writes (number self.now.run) self.now.run.acts tables.old.versions }
        ensures room { tables.old.spare ≤ tables.new.spare + writes_in self.now.run.acts }
    {
        install_writes(self.acts.as_slice(), self.number(), tables);
    }

    /// Adds a granted access.
    pub fn grant(&mut self, access: Granted) -> Result<(), Memory>
        ensures granted { OnOk result
            (self.new ≡ record self.old { run = record self.old.run { acts = access ∷ self.old.run.acts } }) }
        ensures memory { OnErr result (self.new ≡ self.old) }
    {
        let more = if self.acts.is_empty() { FIRST_ROOM } else { 1 };
        self.acts.reserve(more)?;
        self.acts.push_reserved(access);
        Ok(())
    }

    /// Gives it its ticket.
    pub fn hold_ticket(&mut self, ticket: u64)
        ensures { self.new ≡ record self.old { run = record self.old.run { ticket = Some ticket } } }
    {
        self.ticket = Some(ticket);
    }

    /// Seals it, and notes these counters.
    pub fn seal(&mut self, number: u64, counters: Counters)
        ensures { self.new ≡ record { run = record self.old.run { sealed = Some number }; counters = counters } }
    {
        self.sealed = Some(number);
        self.counters = counters;
    }

    /// Takes its sealing back.
    pub fn unseal(&mut self)
        ensures { self.new ≡ record self.old { run = record self.old.run { sealed = None } } }
    {
        self.sealed = None;
    }
}
