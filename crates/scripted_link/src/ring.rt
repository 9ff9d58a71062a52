//! A ring with its two ends.
ghost use Rattle.std.specs.Prelude.{◌≡◌, [], ◌++◌, IfOk};
ghost use mathlib.Core.List.{IsPrefix};
ghost use Rattle.std.specs.Option.{option_to_list};
ghost use Rattle.scripted_link.specs.Inlets.{inlet_ring, taken, ahead, returned, empty_count};
ghost use Rattle.scripted_link.specs.Outlets.{outlet_wire, offered, moved, queued, free_slots};
ghost use Rattle.scripted_link.specs.Script.{let_through};

use crate::inlet::Inlet;
use crate::outlet::Outlet;
use crate::script::LinkScript;
use mdb_base::Memory;
use rtrb::RingBuffer;
use std::alloc::Global;

/// The two ends of a ring.
#[derive(Drop)]
pub struct Ends {
    pub outlet: Outlet,
    pub inlet: Inlet,
}

/// A ring of 64 packets with this script, to which nothing was offered.
pub fn channel(alloc: Global, script: LinkScript) -> Result<Ends, Memory>
    ensures pair { IfOk result (λ ends. inlet_ring ends.inlet ≡ (outlet_wire ends.outlet).ring) }
    ensures script { IfOk result (λ ends. (outlet_wire ends.outlet).script ≡ script) }
    ensures offered { IfOk result (λ ends. offered ends.outlet ≡ []) }
    ensures moved { IfOk result (λ ends. moved ends.outlet ≡ []) }
    ensures queued { IfOk result (λ ends. queued ends.outlet ≡ []) }
    ensures room { IfOk result (λ ends. free_slots ends.outlet ≡ 64) }
    ensures taken { IfOk result (λ ends. taken ends.inlet ≡ []) }
    ensures ahead { IfOk result (λ ends. ahead ends.inlet ≡ []) }
    ensures empties { IfOk result (λ ends. empty_count ends.inlet ≡ 0) }
{
    let (producer, consumer) = RingBuffer::new(alloc, 64)?;
    Ok(Ends {
        outlet: Outlet::new(alloc, producer, script),
        inlet: Inlet::new(consumer),
    })
}

/// Both ends of a ring in one thread: what was taken is a prefix of what the script lets through, also with a packet that was
/// put back, and the inlet knows of all that was moved into the ring, so its next `None` says that all of that was taken.
pub fn meet(outlet: &mut Outlet, inlet: &mut Inlet)
    requires { inlet_ring inlet.old ≡ (outlet_wire outlet.old).ring }
    ensures prefix { IsPrefix (taken inlet.old) (let_through (outlet_wire outlet.old).script (offered outlet.old)) }
    ensures back { IsPrefix (taken inlet.old ++ option_to_list (returned inlet.old)) (let_through (outlet_wire outlet.old).script (offered outlet.old)) }
    ensures wire { outlet_wire outlet.new ≡ outlet_wire outlet.old }
    ensures ring { inlet_ring inlet.new ≡ inlet_ring inlet.old }
    ensures offered { offered outlet.new ≡ offered outlet.old }
    ensures moved { moved outlet.new ≡ moved outlet.old }
    ensures queued { queued outlet.new ≡ queued outlet.old }
    ensures taken { taken inlet.new ≡ taken inlet.old }
    ensures known { taken inlet.new ++ ahead inlet.new ≡ moved outlet.new }
{
    inlet.consumer.slots_beside(&mut outlet.producer);
}
