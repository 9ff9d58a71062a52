//! The end that packets are taken from.
ghost use Rattle.std.specs.Prelude.{◌≡◌, ◌++◌};
ghost use Rattle.std.specs.Option.{option_to_list};
ghost use Rattle.rtrb.specs.Ring.{received};
ghost use Rattle.scripted_link.specs.Back.{without};

use fed_messages::Packet;
use rtrb::Consumer;

/// The end that packets are taken from.
#[derive(Drop)]
pub struct Inlet {
    pub(crate) consumer: Consumer<Packet>,
    /// The packet that was put back.
    back: Option<Packet>,
    empties: u64,
    ghost popped: { received consumer ≡ without (received consumer) back ++ option_to_list back },
}

impl Inlet {
    ghost use Rattle.std.specs.Prelude.{◌≡◌, ◌≢◌, ◌+◌, ◌^◌, ◌-◌, ◌<◌, List, [], ◌∷◌, ◌++◌, min, Some, None, IfSome, IfNone, MatchOption};
    ghost use mathlib.Core.List.{IsPrefix};
    ghost use Rattle.rtrb.specs.Ring.{received, known_items};
    ghost use Rattle.fed_messages.specs.declared.Packet.{Packet as ThePacket};
    ghost use Rattle.scripted_link.specs.Inlets.{inlet_ring, taken, ahead, returned, empty_count};
    ghost use Rattle.scripted_link.specs.Rings.{popped_ring};

    /// The end of a new ring.
    pub(crate) fn new(consumer: Consumer<Packet>) -> Inlet
        requires received { received consumer ≡ [] }
        requires known { known_items consumer ≡ [] }
        ensures ring { inlet_ring result ≡ popped_ring consumer }
        ensures taken { taken result ≡ [] }
        ensures ahead { ahead result ≡ [] }
        ensures back { returned result ≡ None }
        ensures empties { empty_count result ≡ 0 }
    {
        Inlet {
            consumer,
            back: None,
            empties: 0,
        }
    }

    /// The next packet, which is taken then: the one that was put back, or else what the ring gives. `None` comes only where the
    /// ring gives nothing, and is counted.
    pub fn next(&mut self) -> Option<Packet>
        ensures ring { inlet_ring self.new ≡ inlet_ring self.old }
        ensures some { IfSome result (λ packet. taken self.new ≡ taken self.old ++ packet ∷ []) }
        ensures some_known { IfSome result (λ packet. IsPrefix (ahead self.old) (packet ∷ ahead self.new)) }
        ensures none { IfNone result (taken self.new ≡ taken self.old) }
        ensures none_known { IfNone result ((ahead self.old ≡ []) × (ahead self.new ≡ [])) }
        ensures more { IsPrefix (taken self.old) (taken self.new) }
        ensures back { returned self.new ≡ None }
        ensures empties { MatchOption result (empty_count self.new ≡ min (empty_count self.old + 1) (2 ^ 64 - 1)) (λ _. empty_count self.new ≡ empty_count self.old) }
    {
        if let Some(packet) = self.back.take() {
            return Some(packet);
        }
        match self.consumer.pop() {
            Ok(packet) => Some(packet),
            Err(_) => {
                self.empties = self.empties.saturating_add(1);
                None
            }
        }
    }

    /// How often `next` gave nothing. At the type's last value the count stands still.
    pub fn empties(&self) -> u64
        ensures { result ≡ empty_count self.now }
    {
        self.empties
    }

    /// Makes the packet the next one again, and not taken. The call before was the `next` that gave it. It takes no memory.
    pub fn put_back(&mut self, packet: Packet)
        requires last { (before : List ThePacket) × (taken self.old ≡ before ++ packet ∷ []) }
        requires back { returned self.old ≡ None }
        ensures ring { inlet_ring self.new ≡ inlet_ring self.old }
        ensures taken { taken self.old ≡ taken self.new ++ packet ∷ [] }
        ensures ahead { ahead self.new ≡ packet ∷ ahead self.old }
        ensures back { returned self.new ≡ Some packet }
        ensures empties { empty_count self.new ≡ empty_count self.old }
    {
        self.back = Some(packet);
    }
}
