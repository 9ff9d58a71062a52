//! The lines of a site's host, with their stamps and what they send.
ghost use Rattle.std.specs.Prelude.{◌≡◌, ◌+◌, ◌≤◌, ◌++◌, IsSome, length, max, option_to_list};
ghost use Rattle.std.specs.Vec.{vec_len, vec_capacity};
ghost use Rattle.fed_rules.specs.Story.{place_from};
ghost use Rattle.scripted_link.specs.Outlets.{offered};
ghost use Rattle.host_laws.specs.Lines.{packets_at};
ghost use Rattle.fed_hosts.specs.Rooms.{HasAdded, IsBeside, IsReady, IsSendReady};

use crate::site_actor::{LineParts, SiteActor};
use engine_contract::LocalEngine;
use fed_messages::{Envelope, encode_from};
use fed_rules::{FromSite, Line, Place, Places, Stamped};
use journal_disk::Disk;

/// The greater of two stamps.
pub(crate) fn later(a: u64, b: u64) -> u64
    ensures is { result ≡ max a b }
    ensures first { a ≤ result }
    ensures second { b ≤ result }
{
    if a < b { b } else { a }
}

impl<E: LocalEngine, D: Disk> SiteActor<E, D> {
    /// Keeps and offers what a line with this stamp sends, as an envelope with the number of the message among those that were sent, and
    /// gives its place.
    fn post(&mut self, send: Option<FromSite>, stamp: u64) -> Places
        requires ready { IsSome send → IsSendReady self.old }
        ensures places { result ≡ place_from self.old.ends.site (length self.old.sent.items) (option_to_list send) }
        ensures sent { self.new.sent.items ≡ self.old.sent.items ++ option_to_list send }
        ensures offers { offered self.new.ends.outlet ≡ offered self.old.ends.outlet ++ packets_at (length self.old.sent.items) stamp (option_to_list send) }
        ensures beside { IsBeside self.old self.new }
        ensures lines { self.new.lines ≡ self.old.lines }
        ensures last { self.new.last ≡ self.old.last }
    {
        let Some(message) = send else {
            return Places::none();
        };
        let place = self.sent.len() as u32;
        let packet = encode_from(&Envelope {
            index: place,
            stamp,
            message,
        });
        self.ends.outlet.offer(packet);
        self.sent.push_reserved(message);
        Places::one(Place {
            site: self.ends.site,
            place,
        })
    }

    /// Keeps a line with the next stamp, behind the last one and that of the message that it takes (Lamport 1978), and offers what it
    /// sends, as an envelope with the line's stamp and with the number of the message among those that were sent.
    pub(crate) fn keep(&mut self, told: LineParts)
        requires ready { IsReady self.old told }
        ensures added { HasAdded self.old self.new told }
        ensures beside { IsBeside self.old self.new }
        ensures room { vec_len self.new.lines ≡ vec_len self.old.lines + 1 }
        ensures capacity { vec_capacity self.new.lines ≡ vec_capacity self.old.lines }
    {
        let LineParts {
            command,
            answer,
            send,
            after,
        } = told;
        let stamp = later(self.last, after) + 1;
        let sends = self.post(send, stamp);
        self.lines.push_reserved(Stamped {
            stamp,
            line: Line {
                command,
                answer,
                sends,
            },
        });
        self.last = stamp;
    }
}
