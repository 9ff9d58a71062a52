//! The items of the rising lists in records.
ghost use Rattle.record_fields.specs.ExactNamed.{exact_put, exact_participant, exact_ticket, exact_tid};
ghost use Rattle.record_fields.specs.Named.{IsSite, a_put, a_participant, a_ticket, a_tid};
ghost use Rattle.record_fields.specs.Sums.{tid_number};
ghost use Rattle.field_bytes.specs.Fields.{IsTid};

use crate::fields::{protocol_at, put_protocol, put_site, put_tid, site_at};
use crate::items::Item;
use byte_numbers::{DecodeErr, put_u16, put_u64, u16_at, u64_at};
use field_bytes::tid_at;
use mdb_base::{Key, Put, SiteTicket, Tid};
use presumptions::Participant;
use std::alloc::Global;

impl Item for Put {
    ghost number_of = { λ put. put.key.0 };

    ghost field = { a_put };

    ghost in_range = { λ put. Unit {0} };

    ghost exact = { exact_put };

    fn number(&self) -> u64 {
        u64::from(self.key.0)
    }

    fn size(&self) -> Option<usize> {
        Some(10)
    }

    fn put(&self, out: &mut Vec<u8>) {
        put_u16(out, self.key.0);
        put_u64(out, self.value);
    }

    fn take(_: Global, bytes: &[u8]) -> Result<(Put, &[u8]), DecodeErr> {
        let (key, rest) = u16_at(bytes).ok_or(DecodeErr::NoValue)?;
        let (value, rest) = u64_at(rest).ok_or(DecodeErr::NoValue)?;
        let key = Key(key);
        Ok((Put { key, value }, rest))
    }
}

impl Item for Participant {
    ghost number_of = { λ participant. participant.site.0 };

    ghost field = { a_participant };

    ghost in_range = { λ participant. IsSite participant.site };

    ghost exact = { exact_participant };

    fn number(&self) -> u64 {
        u64::from(self.site.0)
    }

    fn size(&self) -> Option<usize> {
        Some(2)
    }

    fn put(&self, out: &mut Vec<u8>) {
        put_site(out, self.site);
        put_protocol(out, self.protocol);
    }

    fn take(_: Global, bytes: &[u8]) -> Result<(Participant, &[u8]), DecodeErr> {
        let (site, rest) = site_at(bytes).ok_or(DecodeErr::NoValue)?;
        let (protocol, rest) = protocol_at(rest).ok_or(DecodeErr::NoValue)?;
        Ok((Participant { site, protocol }, rest))
    }
}

impl Item for SiteTicket {
    ghost number_of = { λ ticket. ticket.site.0 };

    ghost field = { a_ticket };

    ghost in_range = { λ ticket. IsSite ticket.site };

    ghost exact = { exact_ticket };

    fn number(&self) -> u64 {
        u64::from(self.site.0)
    }

    fn size(&self) -> Option<usize> {
        Some(9)
    }

    fn put(&self, out: &mut Vec<u8>) {
        put_site(out, self.site);
        put_u64(out, self.ticket);
    }

    fn take(_: Global, bytes: &[u8]) -> Result<(SiteTicket, &[u8]), DecodeErr> {
        let (site, rest) = site_at(bytes).ok_or(DecodeErr::NoValue)?;
        let (ticket, rest) = u64_at(rest).ok_or(DecodeErr::NoValue)?;
        Ok((SiteTicket { site, ticket }, rest))
    }
}

impl Item for Tid {
    ghost number_of = { tid_number };

    ghost field = { a_tid };

    ghost in_range = { IsTid };

    ghost exact = { exact_tid };

    fn number(&self) -> u64 {
        let transaction = self.tx.0;
        let attempt = self.attempt;
        256 * u64::from(transaction) + u64::from(attempt)
    }

    fn size(&self) -> Option<usize> {
        Some(5)
    }

    fn put(&self, out: &mut Vec<u8>) {
        put_tid(out, *self);
    }

    fn take(_: Global, bytes: &[u8]) -> Result<(Tid, &[u8]), DecodeErr> {
        tid_at(bytes).ok_or(DecodeErr::NoValue)
    }
}
