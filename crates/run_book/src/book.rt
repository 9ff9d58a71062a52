//! The book of a site's runs in one epoch.
ghost use Rattle.std.specs.Prelude.{◌≡◌, ◌+◌, ◌^◌, ◌<◌, ◌≤◌, ◌&&◌, not, Some, None, IfOk, OnOk, OnErr, IsSome, IfSome};
ghost use Rattle.std.specs.Option.{option_copied};
ghost use Rattle.mdb_base.specs.Rising.{IsRising};
ghost use Rattle.mdb_base.specs.Words.{holds_of};
ghost use Rattle.fed_rules.specs.Runs.{after, has_ticket, is_sealed};
ghost use Rattle.run_book.specs.Held.{held_in};
ghost use Rattle.run_book.specs.Book.{started, begins, unbegins, grants, tickets, seals, unseals, drops, commits, table_in, number_in, taken_by};
ghost use Rattle.run_book.specs.Tables.{AreRowsOf};

use crate::counters::Counters;
use crate::granted::Granted;
use crate::held_run::HeldRun;
use crate::run_map::{self, Runs, promised, restored};
use fed_rules::Kept;
use mdb_base::{Key, Memory, Puts, Tid};
use site_tables::Tables;
use std::alloc::Global;
use std::marker::Model;
use ticket_item::TicketItem;

/// The runs of a site in one epoch: the table, the unended runs by attempt, the ticket, and the numbers handed out. Room in the table
/// for the commit of each sealed run is always there.
#[derive(Drop)]
pub struct RunBook {
    tables: Tables,
    runs: Runs,
    promised: usize,
    counter: u64,
    ticket: TicketItem,
}

impl Model for RunBook {
    ghost use Rattle.std.specs.Coded.{codes};
    ghost use Rattle.std.specs.FinMap.{from_entries};
    ghost use Rattle.site_tables.specs.Tables.{versions_code};
    ghost use Rattle.run_book.specs.Held.{runs_code};
    ghost use Rattle.run_book.specs.Book.{RoomyBook};
    ghost use Rattle.run_book.specs.Fields.{IsInOrder};
    ghost use Rattle.run_book.specs.Named.{by_tid};

    ghost Value = { RoomyBook };

    ghost coded = { Prim.hlevel (codes, versions_code, runs_code) };

    ghost view = { λ b. record {
      book = record {
        versions = b.tables.versions;
        runs = from_entries (by_tid b.runs.entries);
        counters = record { counter = b.counter; published = b.ticket.published; owner = b.ticket.owner };
      };
      room = b.ticket.spare;
    } };

    ghost invariant = { λ b. IsInOrder (by_tid b.runs.entries) b.promised b.tables.spare b.ticket };
}

impl RunBook {
    /// The book of an epoch that starts with these rows, transactions in doubt and counters.
    pub fn start(
        alloc: Global,
        rows: &Puts,
        doubtful: &[Kept],
        counters: Counters,
    ) -> Result<Self, Memory>
        ensures book { IfOk result (λ book. book.book ≡ started rows.now doubtful.now counters) }
        ensures rising { OnOk result (IsRising (λ row. row.key.0) rows.now) }
    {
        let mut tables = Tables::new(alloc, rows)?;
        let runs = restored(alloc, doubtful, counters)?;
        let promised = promised(&runs)?;
        tables.reserve(alloc, promised)?;
        let ticket = TicketItem::new(alloc, counters.published, counters.owner)?;
        Ok(RunBook {
            tables,
            runs,
            promised,
            counter: counters.counter,
            ticket,
        })
    }

    /// The counters.
    pub fn counters(&self) -> Counters
        ensures { result ≡ self.now.book.counters }
    {
        Counters {
            counter: self.counter,
            published: self.ticket.peek(),
            owner: self.ticket.owner(),
        }
    }

    /// The unended run of this attempt.
    pub fn run(&self, tid: Tid) -> &HeldRun
        requires { IsSome (held_in self.now.book.runs tid) }
        ensures { held_in self.now.book.runs tid ≡ Some result.now }
    {
        self.find(tid).unwrap()
    }

    /// The unended run of this attempt, if there is one.
    pub fn find(&self, tid: Tid) -> Option<&HeldRun>
        ensures { option_copied result ≡ held_in self.now.book.runs tid }
    {
        run_map::find(&self.runs, tid)
    }

    /// Whether the attempt has a live run.
    pub fn is_live(&self, tid: Tid) -> bool
        ensures { result ≡ holds_of (λ held. not (is_sealed held.run)) (held_in self.now.book.runs tid) }
    {
        match self.find(tid) {
            Some(run) => run.sealed().is_none(),
            None => false,
        }
    }

    /// Whether the attempt has a live run without a ticket.
    pub fn is_ticketless(&self, tid: Tid) -> bool
        ensures { result ≡ holds_of (λ held. not (is_sealed held.run) && not (has_ticket held.run)) (held_in self.now.book.runs tid) }
    {
        match self.find(tid) {
            Some(run) => run.sealed().is_none() && run.ticket().is_none(),
            None => false,
        }
    }

    /// Whether the attempt has a sealed run.
    pub fn is_sealed(&self, tid: Tid) -> bool
        ensures { result ≡ holds_of (λ held. is_sealed held.run) (held_in self.now.book.runs tid) }
    {
        match self.find(tid) {
            Some(run) => run.sealed().is_some(),
            None => false,
        }
    }

    /// Begins a run of an attempt that has none, and answers its number.
    pub fn begin(&mut self, alloc: Global, tid: Tid) -> Result<u64, Memory>
        requires free { held_in self.old.book.runs tid ≡ None }
        requires fits { self.old.book.counters.counter + 1 < 2 ^ 64 }
        ensures number { IfOk result (λ n. n ≡ self.old.book.counters.counter + 1) }
        ensures begun { OnOk result (self.new.book ≡ begins tid self.old.book) }
        ensures memory { OnErr result (self.new.book ≡ self.old.book) }
        ensures room { self.old.room ≤ self.new.room }
    {
        let number = self.counter + 1;
        let run = HeldRun::begun(alloc, tid, number, self.counters());
        run_map::put(&mut self.runs, tid, run)?;
        self.counter = number;
        Ok(number)
    }

    /// Grants an access to a live run.
    pub fn grant(&mut self, tid: Tid, access: Granted) -> Result<(), Memory>
        requires held { IsSome (held_in self.old.book.runs tid) }
        requires live { IfSome (held_in self.old.book.runs tid) (λ held. held.run.sealed ≡ None) }
        ensures granted { OnOk result (self.new.book ≡ grants tid access self.old.book) }
        ensures memory { OnErr result (self.new.book ≡ self.old.book) }
        ensures room { self.old.room ≤ self.new.room }
    {
        run_map::grant(&mut self.runs, tid, access)
    }

    /// Gives a live run without a ticket the one behind the published one, and answers it.
    pub fn take(&mut self, alloc: Global, tid: Tid) -> Result<u64, Memory>
        requires held { IsSome (held_in self.old.book.runs tid) }
        requires live { IfSome (held_in self.old.book.runs tid) (λ held. held.run.sealed ≡ None) }
        requires ticketless { IfSome (held_in self.old.book.runs tid) (λ held. held.run.ticket ≡ None) }
        requires fits { self.old.book.counters.published + 1 < 2 ^ 64 }
        ensures ticket { IfOk result (λ n. n ≡ self.old.book.counters.published + 1) }
        ensures taken { OnOk result (self.new.book ≡ tickets tid (self.old.book.counters.published + 1) self.old.book) }
        ensures memory { OnErr result (self.new.book ≡ self.old.book) }
        ensures room { OnErr result (self.old.room ≤ self.new.room) }
    {
        self.ticket.reserve(alloc)?;
        let ticket = self.ticket.hold(tid);
        run_map::hold_ticket(&mut self.runs, tid, ticket);
        Ok(ticket)
    }

    /// Seals a live run with this serial number: its ticket, which is the next one where it has one, is published with it, and the
    /// counters before are noted at it. Room for its writes is made in the table, and it is sealed only where there is memory for that.
    pub fn seal(&mut self, alloc: Global, tid: Tid, number: u64) -> Result<(), Memory>
        requires held { IsSome (held_in self.old.book.runs tid) }
        requires live { IfSome (held_in self.old.book.runs tid) (λ held. held.run.sealed ≡ None) }
        requires next { IfSome (held_in self.old.book.runs tid)
            (λ held. IfSome held.run.ticket (λ ticket. ticket ≡ self.old.book.counters.published + 1)) }
        ensures sealed { OnOk result (self.new.book ≡ seals tid number self.old.book) }
        ensures memory { OnErr result (self.new.book ≡ self.old.book) }
        ensures room { OnOk result (self.old.room + taken_by (held_in self.old.book.runs tid) ≤ self.new.room) }
        ensures kept_room { self.old.room ≤ self.new.room }
    {
        let run = self.run(tid);
        let ticket = run.ticket();
        let promised = self.promised.checked_add(run.count_writes()).ok_or(Memory)?;
        self.tables.reserve(alloc, promised)?;
        let counters = self.counters();
        run_map::seal(&mut self.runs, tid, number, counters);
        self.promised = promised;
        self.counter = number.max(counters.counter);
        if let Some(ticket) = ticket {
            self.ticket.publish(tid, ticket);
        }
        Ok(())
    }

    /// Takes a sealing back, with the number and the publication.
    pub fn unseal(&mut self, tid: Tid)
        requires held { IsSome (held_in self.old.book.runs tid) }
        requires sealed { IfSome (held_in self.old.book.runs tid) (λ held. IsSome held.run.sealed) }
        requires room { taken_by (held_in self.old.book.runs tid) ≤ self.old.room }
        ensures book { self.new.book ≡ unseals tid self.old.book }
        ensures room { self.old.room ≤ self.new.room + taken_by (held_in self.old.book.runs tid) }
    {
        let run = self.run(tid);
        let counters = run.counters();
        let has_ticket = run.ticket().is_some();
        self.promised -= run.promised();
        run_map::unseal(&mut self.runs, tid);
        self.counter = counters.counter;
        if has_ticket {
            self.ticket
                .withdraw(tid, counters.published, counters.owner);
        }
    }

    /// Takes a run out, with its promise and its hold on the ticket.
    pub fn take_out(&mut self, tid: Tid) -> HeldRun
        requires { IsSome (held_in self.old.book.runs tid) }
        ensures book { self.new.book ≡ drops tid self.old.book }
        ensures run { held_in self.old.book.runs tid ≡ Some result }
        ensures room { self.old.room ≤ self.new.room }
    {
        let run = run_map::take_out(&mut self.runs, tid).unwrap();
        self.promised -= run.promised();
        self.ticket.give_up(tid);
        run
    }

    /// Takes a begin back, with its number.
    pub fn unbegin(&mut self, tid: Tid)
        requires { IsSome (held_in self.old.book.runs tid) }
        ensures book { self.new.book ≡ unbegins tid self.old.book }
        ensures room { self.old.room ≤ self.new.room }
    {
        let run = self.take_out(tid);
        self.counter = run.age().saturating_sub(1);
    }

    /// Commits a sealed run, and answers it: its writes go to the table by its serial number.
    pub fn commit(&mut self, tid: Tid) -> HeldRun
        requires held { IsSome (held_in self.old.book.runs tid) }
        requires sealed { IfSome (held_in self.old.book.runs tid) (λ held. IsSome held.run.sealed) }
        ensures book { self.new.book ≡ commits tid self.old.book }
        ensures run { held_in self.old.book.runs tid ≡ Some result }
    {
        let run = run_map::take_out(&mut self.runs, tid).unwrap();
        run.install(&mut self.tables);
        self.promised -= run.promised();
        run
    }

    /// The value of a key in the table.
    pub fn value(&self, key: Key) -> u64
        ensures { result ≡ table_in self.now.book key }
    {
        self.tables.get(key)
    }

    /// The number of the run that wrote a key's value in the table; that of a first or absent row is 0.
    pub fn number(&self, key: Key) -> u64
        ensures { result ≡ number_in self.now.book key }
    {
        self.tables.number(key)
    }

    /// What a run reads of a key: its own last write, or the table's value.
    pub fn value_for(&self, tid: Tid, key: Key) -> u64
        requires { IsSome (held_in self.now.book.runs tid) }
        ensures { IfSome (held_in self.now.book.runs tid)
            (λ held. result ≡ after held.run.acts (table_in self.now.book) key) }
    {
        match self.run(tid).own_value(key) {
            Some(value) => value,
            None => self.value(key),
        }
    }

    /// The rows of the table by rising key.
    pub fn rows(&self, alloc: Global) -> Result<Puts, Memory>
        ensures { IfOk result (AreRowsOf self.now.book.versions) }
    {
        self.tables.rows(alloc)
    }
}
