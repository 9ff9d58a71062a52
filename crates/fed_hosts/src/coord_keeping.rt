//! The lines of the coordinator's host, with their stamps and what they send.
ghost use Rattle.std.specs.Prelude.{◌≡◌, ◌+◌, ◌<◌, ◌^◌, [], ◌∷◌, ◌++◌};
ghost use Rattle.std.specs.Vec.{vec_len, vec_capacity};
ghost use Rattle.fed_hosts.specs.CoordRooms.{HasCoordAdded, HasCoordLineRoom, IsBesideCoord, IsCoordReady};

use crate::coord_actor::{CoordActor, CoordLineParts};
use crate::keeping::later;
use crate::posting::post_all;
use fed_rules::{Answer, Command, Line, Places, Stamped};
use global_exec::TakePolicy;
use journal_disk::Disk;

impl<P: TakePolicy, D: Disk> CoordActor<P, D> {
    /// Keeps a line with the next stamp, behind the last one and that of the message that it takes (Lamport 1978), and offers what it
    /// sends to each site, as an envelope with the line's stamp and with the number of the message among those that were sent there.
    pub(crate) fn keep(&mut self, told: CoordLineParts)
        requires ready { IsCoordReady self.old told }
        ensures added { HasCoordAdded self.old self.new told }
        ensures beside { IsBesideCoord self.old self.new }
        ensures room { vec_len self.new.lines ≡ vec_len self.old.lines + 1 }
        ensures capacity { vec_capacity self.new.lines ≡ vec_capacity self.old.lines }
    {
        let CoordLineParts {
            command,
            answer,
            sends,
            after,
        } = told;
        let stamp = later(self.last, after) + 1;
        post_all(&mut self.ports, sends.as_slice(), stamp, &mut self.spare);
        let places = Places::taken(self.alloc, &mut self.spare);
        self.lines.push_reserved(Stamped {
            stamp,
            line: Line {
                command,
                answer,
                sends: places,
            },
        });
        self.last = stamp;
    }

    /// Keeps a line with the next stamp that takes no message and sends none.
    pub(crate) fn note(&mut self, command: Command, answer: Answer)
        requires line { HasCoordLineRoom self.old }
        requires last { self.old.last + 1 < 2 ^ 64 }
        ensures lines { self.new.lines.items ≡ self.old.lines.items ++ record { stamp = self.old.last + 1; line = record { command = command; answer = answer; sends = [] } } ∷ [] }
        ensures ports { self.new.ports ≡ self.old.ports }
        ensures last { self.new.last ≡ self.old.last + 1 }
        ensures beside { IsBesideCoord self.old self.new }
    {
        let stamp = self.last + 1;
        self.lines.push_reserved(Stamped {
            stamp,
            line: Line {
                command,
                answer,
                sends: Places::none(),
            },
        });
        self.last = stamp;
    }
}
