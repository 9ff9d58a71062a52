//! One ring whose ends go through two locks, and come back as a pair.
ghost use Rattle.std.specs.Prelude.{◌≡◌, [], ◌∷◌, IfOk, Some, slice_get};
ghost use mathlib.Core.List.{IsPrefix};
ghost use Rattle.scripted_link.specs.Inlets.{inlet_ring, taken};
ghost use Rattle.scripted_link.specs.Outlets.{outlet_wire, offered};
ghost use Rattle.scripted_link.specs.Script.{let_through};

use crate::links::packet_at;
use mdb_base::{Fate, Memory};
use scripted_link::{Ends, FateAt, Inlet, LinkScript, Outlet, Packet, Wires, channel, meet};
use std::alloc::Global;
use std::marker::{Brand, Model, PhantomData};
use std::sync::{Mutex, Wait};
use std::test::Fail;
use std::thread;
use std::thread::Threads;

/// The outlet of the first ring that `N` names.
#[derive(Drop)]
struct Sender<N: Wires> {
    outlet: Outlet,
    of: PhantomData<N>,
}

impl<N: Wires> Model for Sender<N> {
    ghost use Rattle.std.specs.Prelude.{◌≡◌, List, Some, slice_get};
    ghost use Rattle.fed_messages.specs.declared.Packet.{Packet};
    ghost use Rattle.scripted_link.specs.Outlets.{outlet_wire, offered};

    ghost Value = { List Packet };

    ghost view = { λ s. offered s.outlet };

    ghost invariant = { λ s. slice_get N.rings 0 ≡ Some (outlet_wire s.outlet) };
}

impl<N: Wires> Sender<N> {
    fn new(outlet: Outlet) -> Sender<N>
        requires { slice_get N.rings 0 ≡ Some (outlet_wire outlet) }
    {
        Sender {
            outlet,
            of: PhantomData,
        }
    }

    fn send(&mut self, packet: Packet) -> Result<(), Memory> {
        self.outlet.reserve()?;
        self.outlet.offer(packet);
        self.outlet.flush();
        Ok(())
    }

    fn finish(self) -> Outlet
        ensures { slice_get N.rings 0 ≡ Some (outlet_wire result) }
    {
        let Sender { outlet, .. } = self;
        outlet
    }
}

/// The inlet of the first ring that `N` names, and what was taken from it.
#[derive(Drop)]
struct Receiver<N: Wires> {
    inlet: Inlet,
    took: Vec<Packet>,
    of: PhantomData<N>,
}

impl<N: Wires> Model for Receiver<N> {
    ghost use Rattle.std.specs.Prelude.{◌≡◌, List, Some, option_map, slice_get};
    ghost use Rattle.fed_messages.specs.declared.Packet.{Packet};
    ghost use Rattle.scripted_link.specs.Inlets.{inlet_ring, taken};
    ghost use Rattle.scripted_link.specs.Rings.{Wire};

    ghost Value = { List Packet };

    ghost view = { λ r. r.took.items };

    ghost invariant = { λ r. (option_map (λ (w : Wire). w.ring) (slice_get N.rings 0) ≡ Some (inlet_ring r.inlet)) × (taken r.inlet ≡ r.took.items) };
}

impl<N: Wires> Receiver<N> {
    ghost use Rattle.std.specs.Prelude.{option_map};
    ghost use Rattle.scripted_link.specs.Rings.{Wire};

    fn new(alloc: Global, inlet: Inlet) -> Receiver<N>
        requires named { option_map (λ (w : Wire). w.ring) (slice_get N.rings 0) ≡ Some (inlet_ring inlet) }
        requires fresh { taken inlet ≡ [] }
    {
        Receiver {
            inlet,
            took: Vec::new(alloc),
            of: PhantomData,
        }
    }

    /// Takes the next packet, if the ring gives one.
    fn take(&mut self) -> Result<(), Memory> {
        self.took.try_reserve(1)?;
        if let Some(packet) = self.inlet.next() {
            self.took.push_reserved(packet);
        }
        Ok(())
    }

    fn finish(self) -> (Inlet, Vec<Packet>)
        ensures named { option_map (λ (w : Wire). w.ring) (slice_get N.rings 0) ≡ Some (inlet_ring result.0) }
        ensures took { taken result.0 ≡ result.1.items }
    {
        let Receiver { inlet, took, .. } = self;
        (inlet, took)
    }
}

fn send_all<N: Wires>(rt: &impl Wait, sender: &Mutex<Sender<N>>, offers: u8) -> Result<(), Memory> {
    for place in 0..offers {
        sender.lock(rt).send(packet_at(place))?;
    }
    Ok(())
}

fn take_all<N: Wires>(rt: &impl Wait, receiver: &Mutex<Receiver<N>>) -> Result<(), Memory> {
    for _ in 0..100u32 {
        receiver.lock(rt).take()?;
    }
    Ok(())
}

/// Packets are sent under one lock and taken under another. Then both ends lie in this thread again.
fn cross<R: Threads + Wait + Sync, N: Wires + Send>(
    rt: &R,
    alloc: Global,
    ends: Ends,
    offers: u8,
) -> Result<(Outlet, Vec<Packet>), Memory>
    requires pair { inlet_ring ends.inlet ≡ (outlet_wire ends.outlet).ring }
    requires fresh { taken ends.inlet ≡ [] }
    requires named { N.rings ≡ outlet_wire ends.outlet ∷ [] }
    ensures { IfOk result (λ r. IsPrefix r.1.items (let_through (outlet_wire r.0).script (offered r.0))) }
{
    let Ends { outlet, inlet } = ends;
    let sender = Mutex::new(Sender::<N>::new(outlet));
    let receiver = Mutex::new(Receiver::<N>::new(alloc, inlet));
    let (sent, took) = thread::join(
        rt,
        || send_all(rt, &sender, offers),
        || take_all(rt, &receiver),
    );
    sent?;
    took?;
    let mut outlet = sender.into_inner().finish();
    let (mut inlet, took) = receiver.into_inner().finish();
    meet(&mut outlet, &mut inlet);
    Ok((outlet, took))
}

/// The packets that were taken are the first ones that the script lets through.
fn crossed<R: Threads + Wait + Sync>(
    rt: &R,
    alloc: Global,
    script: LinkScript,
    offers: u8,
) -> Result<(Outlet, Vec<Packet>), Memory>
    ensures { IfOk result (λ r. IsPrefix r.1.items (let_through (outlet_wire r.0).script (offered r.0))) }
{
    let ends = channel(alloc, script)?;
    cross::<R, Brand>(rt, alloc, ends, offers)
}

#[test]
fn ends_that_went_through_two_locks_are_a_pair(rt: HostRuntime) -> Result<(), Fail> {
    let twice = FateAt {
        place: 1,
        fate: Fate::Twice,
    };
    let dropped = FateAt {
        place: 2,
        fate: Fate::Drop,
    };
    let script = LinkScript::of(vec![in rt.alloc(); twice, dropped]?);
    let (_, took) = crossed(&rt, rt.alloc(), script, 5)?;
    let wanted = [
        packet_at(0),
        packet_at(1),
        packet_at(1),
        packet_at(3),
        packet_at(4),
    ];
    assert!(rt; wanted.as_slice().starts_with(took.as_slice()));
    Ok(())
}
