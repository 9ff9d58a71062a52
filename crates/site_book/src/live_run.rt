//! A live attempt, as far as it is.
ghost use Rattle.std.specs.Prelude.{◌≡◌, ◌<◌, ◌≤◌, IfOk, is_some};
ghost use Rattle.site_book.specs.Book.{replied, taken};
ghost use Rattle.site_book.specs.Noted.{done_in, fresh, reply_in, with_read, with_write};

use mdb_base::{Memory, PlainAct, Reply};
use std::alloc::Global;
use std::marker::Model;

/// What is noted of a live attempt. From its begin on it has room for the values of 32 reads.
#[derive(Drop)]
pub struct LiveRun {
    accesses: u8,
    ticket: Option<u64>,
    last: Reply,
    reads: Vec<u64>,
}

impl Model for LiveRun {
    ghost use Rattle.std.specs.Prelude.{vec_len, ◌≤◌};
    ghost use Rattle.std.specs.Vec.{vec_capacity};
    ghost use Rattle.site_book.specs.Noted.{Noted};

    ghost Value = { Noted };

    ghost view = { λ r. record { accesses = r.accesses; ticket = r.ticket; last = r.last; reads = r.reads.items } };

    ghost invariant = { λ r. (vec_len r.reads ≤ r.accesses) × (32 ≤ vec_capacity r.reads) };
}

impl LiveRun {
    /// An attempt that begins.
    pub(crate) fn begun(alloc: Global) -> Result<Self, Memory>
        ensures { IfOk result (λ run. run ≡ fresh) }
    {
        Ok(LiveRun {
            accesses: 0,
            ticket: None,
            last: Reply::Unknown,
            reads: Vec::with_capacity(alloc, 32)?,
        })
    }

    /// How many operations are finished: its granted accesses, and the taking of its ticket.
    pub fn done(&self) -> u32
        ensures { result ≡ done_in self.now }
    {
        u32::from(self.accesses) + if self.has_ticket() { 1 } else { 0 }
    }

    /// How many accesses of it are granted.
    pub fn accesses(&self) -> u8
        ensures { result ≡ self.now.accesses }
    {
        self.accesses
    }

    /// Whether it has taken its ticket.
    pub fn has_ticket(&self) -> bool
        ensures { result ≡ is_some self.now.ticket }
    {
        self.ticket.is_some()
    }

    /// Its ticket, once it has taken one.
    pub fn ticket(&self) -> Option<u64>
        ensures { result ≡ self.now.ticket }
    {
        self.ticket
    }

    /// The reply to its last finished operation, and unknown where none is finished.
    pub fn reply(&self) -> Reply
        ensures { result ≡ reply_in self.now }
    {
        match self.ticket {
            Some(ticket) => Reply::Ticket(ticket),
            None => self.last,
        }
    }

    /// The values that it read, in program order.
    pub fn reads(&self) -> &[u64]
        ensures { result.now ≡ self.now.reads }
    {
        self.reads.as_slice()
    }

    /// Notes the reply to an access: a granted one is finished, and else nothing changes.
    pub(crate) fn note_reply(&mut self, act: PlainAct, reply: Reply)
        requires { self.old.accesses < 32 }
        ensures { self.new ≡ replied reply act self.old }
    {
        match (reply, act) {
            (Reply::Value(value), PlainAct::Read(_)) => self.read(value),
            (Reply::Done, PlainAct::Write(..)) => self.write(),
            _ => {}
        }
    }

    fn read(&mut self, value: u64)
        requires { self.old.accesses < 32 }
        ensures { self.new ≡ with_read value self.old }
    {
        self.accesses += 1;
        self.last = Reply::Value(value);
        self.reads.push_reserved(value);
    }

    fn write(&mut self)
        requires { self.old.accesses < 32 }
        ensures { self.new ≡ with_write self.old }
    {
        self.accesses += 1;
        self.last = Reply::Done;
    }

    /// Notes the reply to the taking of the ticket, which is kept where it is given.
    pub(crate) fn note_take(&mut self, reply: Reply)
        ensures { self.new ≡ taken reply self.old }
    {
        if let Reply::Ticket(ticket) = reply {
            self.ticket = Some(ticket);
        }
    }
}
