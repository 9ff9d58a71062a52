//! How the coordinator goes round its inlets.
ghost use Rattle.std.specs.Prelude.{◌≡◌, ◌≤◌, ◌<◌, IfNone, IfSome, length};
ghost use Rattle.fed_hosts.specs.CoordTurns.{HavePassed};
ghost use Rattle.fed_hosts.specs.Ports.{empties_of};
ghost use Rattle.fed_hosts.specs.Rounds.{ArePolled, HasArrived, HasComeFrom, HaveGivenNone};

use crate::ports::Port;
use fed_messages::Packet;

/// A packet that came in at the port of this place.
#[derive(Clone, Copy)]
pub(crate) struct Arrived {
    pub(crate) place: usize,
    pub(crate) packet: Packet,
}

/// The first packet that the inlets from one place to another give; those behind it aren't asked.
fn first_between(ports: &mut Vec<Port>, from: usize, to: usize) -> Option<Arrived>
    requires { to ≤ length ports.old.items }
    ensures polled { ArePolled result ports.old.items ports.new.items }
    ensures arrived { IfSome result (HasArrived ports.new.items) }
    ensures came { IfSome result (λ arrived. HasComeFrom from to arrived.place ports.old.items ports.new.items) }
    ensures none { IfNone result (HaveGivenNone from to ports.old.items ports.new.items) }
{
    for place in from..to {
        if let Some(packet) = ports[place].ends.inlet.next() {
            return Some(Arrived { place, packet });
        }
    }
    None
}

/// The first packet that an inlet gives, going once round all of them from this place on; those behind it aren't asked.
pub(crate) fn next_arrived(ports: &mut Vec<Port>, from: usize) -> Option<Arrived>
    ensures polled { ArePolled result ports.old.items ports.new.items }
    ensures arrived { IfSome result (HasArrived ports.new.items) }
    ensures passed { IfSome result (λ arrived. HavePassed (length ports.old.items) from arrived.place (empties_of ports.old.items) (empties_of ports.new.items)) }
    ensures none { IfNone result (HaveGivenNone 0 (length ports.old.items) ports.old.items ports.new.items) }
{
    let all = ports.len();
    let middle = if from < all { from } else { 0 };
    match first_between(ports, middle, all) {
        Some(arrived) => Some(arrived),
        None => first_between(ports, 0, middle),
    }
}
