//! The end that packets are offered to.
ghost use Rattle.std.specs.Prelude.{◌≡◌, ◌++◌};
ghost use Rattle.rtrb.specs.Ring.{sent};
ghost use Rattle.scripted_link.specs.Script.{let_through};

use crate::script::LinkScript;
use crate::steps::{fate_of, move_all, queue_copies, queue_due};
use fed_messages::Packet;
use mdb_base::Memory;
use rtrb::Producer;
use std::alloc::Global;
use std::collections::VecDeque;

/// The end that packets are offered to. It keeps all packets that it was offered.
#[derive(Drop)]
pub struct Outlet {
    pub(crate) producer: Producer<Packet>,
    script: LinkScript,
    offered: Vec<Packet>,
    /// The copies that wait for a slot of the ring.
    queued: VecDeque<Packet>,
    ghost lets: { sent producer ++ queued.items ≡ let_through script offered.items },
}

impl Outlet {
    ghost use Rattle.std.specs.Prelude.{◌≡◌, [], ◌∷◌, ◌++◌, OnOk};
    ghost use Rattle.rtrb.specs.Ring.{sent, known_free};
    ghost use Rattle.scripted_link.specs.Outlets.{outlet_wire, offered, moved, queued, free_slots, IsReserved};
    ghost use Rattle.scripted_link.specs.Moves.{Moves};
    ghost use Rattle.scripted_link.specs.Rings.{pushed_ring};
    ghost use Rattle.scripted_link.specs.Script.{at_offer};

    /// The end of a new ring.
    pub(crate) fn new(alloc: Global, producer: Producer<Packet>, script: LinkScript) -> Outlet
        requires { sent producer ≡ [] }
        ensures wire { outlet_wire result ≡ record { ring = pushed_ring producer; script = script } }
        ensures offered { offered result ≡ [] }
        ensures moved { moved result ≡ [] }
        ensures queued { queued result ≡ [] }
        ensures room { free_slots result ≡ known_free producer }
    {
        Outlet {
            producer,
            script,
            offered: Vec::new(alloc),
            queued: VecDeque::new(alloc),
        }
    }

    /// Makes room, so that one offer takes no memory. It changes nothing else.
    pub fn reserve(&mut self) -> Result<(), Memory>
        ensures reserved { OnOk result (IsReserved self.new) }
        ensures wire { outlet_wire self.new ≡ outlet_wire self.old }
        ensures offered { offered self.new ≡ offered self.old }
        ensures moved { moved self.new ≡ moved self.old }
        ensures queued { queued self.new ≡ queued self.old }
        ensures room { free_slots self.new ≡ free_slots self.old }
    {
        let copies = self.script.len().checked_add(2).ok_or(Memory)?;
        self.offered.try_reserve(1)?;
        self.queued.try_reserve(copies)?;
        Ok(())
    }

    /// Queues the copies that go on with this packet: one where it passes and two where it is doubled, none where it is dropped
    /// or held, and behind them one of each held packet that falls due with it.
    pub fn offer(&mut self, packet: Packet)
        requires { IsReserved self.old }
        ensures wire { outlet_wire self.new ≡ outlet_wire self.old }
        ensures offered { offered self.new ≡ offered self.old ++ packet ∷ [] }
        ensures moved { moved self.new ≡ moved self.old }
        ensures queued { queued self.new ≡ queued self.old ++ at_offer (outlet_wire self.old).script (offered self.old) packet }
    {
        let fate = fate_of(self.script.as_slice(), self.offered.len());
        self.offered.push_reserved(packet);
        queue_copies(&mut self.queued, fate, packet);
        queue_due(
            &mut self.queued,
            self.script.as_slice(),
            self.offered.as_slice(),
        );
    }

    /// Moves queued copies into the ring, in their order, until none is queued or the ring gives one back: at least as many as
    /// slots are known to be free, or all. The others stay queued.
    pub fn flush(&mut self)
        ensures wire { outlet_wire self.new ≡ outlet_wire self.old }
        ensures offered { offered self.new ≡ offered self.old }
        ensures moves { Moves (moved self.old) (queued self.old) (moved self.new) (queued self.new) (free_slots self.old) (free_slots self.new) }
        ensures reserved { IsReserved self.old → IsReserved self.new }
    {
        move_all(&mut self.producer, &mut self.queued);
    }
}
