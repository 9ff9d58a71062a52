//! The items of a Checkpoint's lists: subtransactions in doubt, open attempts and committed ones.
ghost use Rattle.std.specs.Prelude.{◌≡◌, ◌≤◌, ◌<◌, ◌+◌, ◌*◌, ◌^◌, ◌++◌, length, All};
ghost use Rattle.std.specs.Vec.{vec_capacity};
ghost use Rattle.field_bytes.specs.Fields.{IsTid};
ghost use Rattle.record_fields.specs.ExactSums.{exact_a_doubtful, exact_an_open_attempt, exact_a_committed_attempt};
ghost use Rattle.record_fields.specs.Named.{IsSite};
ghost use Rattle.record_fields.specs.Sums.{tid_number, prepared, a_doubtful, an_open_attempt, a_committed_attempt};

use crate::fields::put_tid;
use crate::items::{Item, counted, counted_items};
use crate::lists::{
    participants_at, put_participants, put_tickets, put_writes, tickets_at, writes_at,
};
use byte_numbers::{DecodeErr, put_u32, put_u64, u32_at, u64_at};
use fed_rules::{CommittedAttempt, DoubtfulSum, OpenAttempt};
use field_bytes::tid_at;
use mdb_base::{Puts, Tid};
use std::alloc::Global;

/// Writes a Prepared record's attempt, epoch, serial number, ticket and writes.
pub fn put_prepared(
    out: &mut Vec<u8>,
    tid: Tid,
    epoch: u32,
    number: u64,
    ticket: u64,
    writes: &Puts,
)
    requires in_range { IsTid tid }
    requires small { 10 * length writes.now < 2 ^ 16 }
    requires room { length out.old.items + (27 + 10 * length writes.now) ≤ vec_capacity out.old }
    ensures bytes { out.new.items ≡ out.old.items ++ prepared.spelling (tid, (epoch, (number, (ticket, writes.now)))) }
    ensures size { length out.new.items ≡ length out.old.items + (27 + 10 * length writes.now) }
    ensures room { vec_capacity out.old ≤ vec_capacity out.new }
    ensures fits { prepared.Fits (tid, (epoch, (number, (ticket, writes.now)))) }
{
    put_tid(out, tid);
    put_u32(out, epoch);
    put_u64(out, number);
    put_u64(out, ticket);
    put_writes(out, writes);
}

impl Item for DoubtfulSum {
    ghost number_of = { λ held. tid_number held.tid };

    ghost field = { a_doubtful };

    ghost in_range = { λ held. IsTid held.tid };

    ghost exact = { exact_a_doubtful };

    fn number(&self) -> u64 {
        self.tid.number()
    }

    #[tactic(auto, using(crate::proofs::Sizes::doubtful_size))]
    fn size(&self) -> Option<usize> {
        let rows = counted_items(self.writes.len(), 10)?;
        counted(27 + rows)
    }

    #[tactic(auto, using(crate::proofs::Sizes::doubtful_size))]
    fn put(&self, out: &mut Vec<u8>) {
        put_prepared(
            out,
            self.tid,
            self.epoch,
            self.number,
            self.ticket,
            &self.writes,
        );
    }

    fn take(alloc: Global, bytes: &[u8]) -> Result<(DoubtfulSum, &[u8]), DecodeErr> {
        let (tid, rest) = tid_at(bytes).ok_or(DecodeErr::NoValue)?;
        let (epoch, rest) = u32_at(rest).ok_or(DecodeErr::NoValue)?;
        let (number, rest) = u64_at(rest).ok_or(DecodeErr::NoValue)?;
        let (ticket, rest) = u64_at(rest).ok_or(DecodeErr::NoValue)?;
        let (writes, rest) = writes_at(alloc, rest)?;
        let held = DoubtfulSum {
            tid,
            epoch,
            number,
            ticket,
            writes,
        };
        Ok((held, rest))
    }
}

impl Item for OpenAttempt {
    ghost number_of = { λ attempt. tid_number attempt.tid };

    ghost field = { an_open_attempt };

    ghost in_range = { λ attempt. IsTid attempt.tid × All (λ participant. IsSite participant.site) attempt.participants };

    ghost exact = { exact_an_open_attempt };

    fn number(&self) -> u64 {
        self.tid.number()
    }

    #[tactic(auto, using(crate::proofs::Sizes::open_attempt_size))]
    fn size(&self) -> Option<usize> {
        let sites = counted_items(self.participants.len(), 2)?;
        counted(6 + sites)
    }

    #[tactic(auto, using(crate::proofs::Sizes::open_attempt_size))]
    fn put(&self, out: &mut Vec<u8>) {
        put_tid(out, self.tid);
        put_participants(out, &self.participants);
    }

    fn take(alloc: Global, bytes: &[u8]) -> Result<(OpenAttempt, &[u8]), DecodeErr> {
        let (tid, rest) = tid_at(bytes).ok_or(DecodeErr::NoValue)?;
        let (participants, rest) = participants_at(alloc, rest)?;
        Ok((OpenAttempt { tid, participants }, rest))
    }
}

impl Item for CommittedAttempt {
    ghost number_of = { λ attempt. tid_number attempt.tid };

    ghost field = { a_committed_attempt };

    ghost in_range = { λ attempt. IsTid attempt.tid × All (λ ticket. IsSite ticket.site) attempt.tickets };

    ghost exact = { exact_a_committed_attempt };

    fn number(&self) -> u64 {
        self.tid.number()
    }

    #[tactic(auto, using(crate::proofs::Sizes::committed_attempt_size))]
    fn size(&self) -> Option<usize> {
        let sites = counted_items(self.tickets.len(), 9)?;
        counted(6 + sites)
    }

    #[tactic(auto, using(crate::proofs::Sizes::committed_attempt_size))]
    fn put(&self, out: &mut Vec<u8>) {
        put_tid(out, self.tid);
        put_tickets(out, &self.tickets);
    }

    fn take(alloc: Global, bytes: &[u8]) -> Result<(CommittedAttempt, &[u8]), DecodeErr> {
        let (tid, rest) = tid_at(bytes).ok_or(DecodeErr::NoValue)?;
        let (tickets, rest) = tickets_at(alloc, rest)?;
        Ok((CommittedAttempt { tid, tickets }, rest))
    }
}
