//! The steps of an outlet.
ghost use Rattle.std.specs.Prelude.{◌≡◌, ◌+◌, ◌<◌, ◌≤◌, ◌∷◌, ◌++◌, length};
ghost use Rattle.std.specs.VecDeque.{deque_len, deque_capacity};
ghost use Rattle.rtrb.specs.Ring.{sent, known_free};
ghost use Rattle.scripted_link.specs.Moves.{Moves};
ghost use Rattle.scripted_link.specs.Rings.{pushed_ring};
ghost use Rattle.scripted_link.specs.Script.{copies, due, due_at, fate_at};

use crate::script::FateAt;
use fed_messages::Packet;
use mdb_base::Fate;
use rtrb::Producer;
use std::collections::VecDeque;

/// The fate of the packet at this place.
pub fn fate_of(script: &[FateAt], place: usize) -> Fate
    ensures { result ≡ fate_at script.now place }
{
    for named in script {
        if named.place as usize == place {
            return named.fate;
        }
    }
    Fate::Pass
}

/// Queues the copies of a packet that go on at once.
pub fn queue_copies(queued: &mut VecDeque<Packet>, fate: Fate, packet: Packet)
    requires { deque_len queued.old + 2 ≤ deque_capacity queued.old }
    ensures items { queued.new.items ≡ queued.old.items ++ copies fate packet }
    ensures len { deque_len queued.new ≤ deque_len queued.old + 2 }
    ensures capacity { deque_capacity queued.new ≡ deque_capacity queued.old }
{
    match fate {
        Fate::Pass => queued.push_back_reserved(packet),
        Fate::Twice => {
            queued.push_back_reserved(packet);
            queued.push_back_reserved(packet);
        }
        Fate::Drop | Fate::Hold(_) => {}
    }
}

/// Queues the held packets that fall due with the last offer.
pub fn queue_due(queued: &mut VecDeque<Packet>, script: &[FateAt], offered: &[Packet])
    requires { deque_len queued.old + length script.now ≤ deque_capacity queued.old }
    ensures items { queued.new.items ≡ queued.old.items ++ due script.now offered.now }
{
    for named in script {
        queue_one(queued, *named, offered);
    }
}

/// Queues the packet at this place, if it is held and falls due with the last offer.
fn queue_one(queued: &mut VecDeque<Packet>, named: FateAt, offered: &[Packet])
    requires { deque_len queued.old < deque_capacity queued.old }
    ensures items { queued.new.items ≡ queued.old.items ++ due_at named.place named.fate offered.now }
    ensures len { deque_len queued.new ≤ deque_len queued.old + 1 }
    ensures capacity { deque_capacity queued.new ≡ deque_capacity queued.old }
{
    let place = named.place as usize;
    if let Fate::Hold(further) = named.fate {
        if place + further as usize + 1 == offered.len() {
            queued.push_back_reserved(offered[place]);
        }
    }
}

/// Moves queued copies into the ring until none is queued or the ring gives one back.
pub fn move_all(producer: &mut Producer<Packet>, queued: &mut VecDeque<Packet>)
    ensures ring { pushed_ring producer.new ≡ pushed_ring producer.old }
    ensures moves { Moves (sent producer.old) queued.old.items (sent producer.new) queued.new.items (known_free producer.old) (known_free producer.new) }
    ensures len { deque_len queued.new ≤ deque_len queued.old }
    ensures capacity { deque_capacity queued.new ≡ deque_capacity queued.old }
{
    while let Some(packet) = queued.front() {
        if producer.push(*packet).is_err() {
            break;
        }
        queued.pop_front();
    }
}
