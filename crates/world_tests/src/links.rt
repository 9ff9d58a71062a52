//! Generated scripts against a plain computation.
use mdb_base::{Fate, Memory};
use scripted_link::{Ends, FateAt, Inlet, LinkScript, Packet, channel};
use std::alloc::Global;
use std::test::Fail;

/// The packet that is offered at this place.
pub fn packet_at(place: u8) -> Packet {
    let mut bytes = [0u8; 40];
    bytes[0] = place;
    Packet { len: 1, bytes }
}

/// The fate with this number.
fn fate_of(number: u32) -> Fate {
    match number % 8 {
        0 => Fate::Drop,
        1 => Fate::Twice,
        2 => Fate::Hold(1),
        3 => Fate::Hold(2),
        4 => Fate::Hold(3),
        5 => Fate::Hold(7),
        6 => Fate::Hold(40),
        _ => Fate::Pass,
    }
}

fn next_number(number: u32) -> u32 {
    number.wrapping_mul(1_664_525).wrapping_add(1_013_904_223)
}

/// A generated script for up to 60 packets.
fn script_of(alloc: Global, seed: u32) -> Result<LinkScript, Memory> {
    let mut fates = Vec::new(alloc);
    let mut number = seed;
    for place in 0..60u32 {
        number = next_number(number);
        if number >> 30 != 0 {
            fates.push(FateAt {
                place,
                fate: fate_of(number >> 16),
            })?;
        }
    }
    Ok(LinkScript::of(fates))
}

/// The fate of the packet at this place.
fn fate_at(script: &[FateAt], place: u32) -> Fate {
    for named in script {
        if named.place == place {
            return named.fate;
        }
    }
    Fate::Pass
}

/// What the script lets through of so many packets: for each offer its copies, and then the held ones that fall due with it.
fn let_through(alloc: Global, script: &[FateAt], offers: u8) -> Result<Vec<Packet>, Memory> {
    let mut packets = Vec::new(alloc);
    for last in 0..offers {
        match fate_at(script, u32::from(last)) {
            Fate::Pass => packets.push(packet_at(last))?,
            Fate::Twice => {
                packets.push(packet_at(last))?;
                packets.push(packet_at(last))?;
            }
            Fate::Drop => {}
            Fate::Hold(_) => {}
        }
        for place in 0..=last {
            if fate_at(script, u32::from(place)) == Fate::Hold(last - place) {
                packets.push(packet_at(place))?;
            }
        }
    }
    Ok(packets)
}

/// Offers so many packets, flushes now and then, and takes what comes; each fourth packet is put back once.
fn carry(alloc: Global, ends: &mut Ends, offers: u8, seed: u32) -> Result<Vec<Packet>, Memory> {
    let mut took = Vec::new(alloc);
    let mut number = seed;
    for place in 0..offers {
        number = next_number(number);
        ends.outlet.reserve()?;
        ends.outlet.offer(packet_at(place));
        if number >> 31 == 0 {
            ends.outlet.flush();
        }
        if number >> 30 == 1 {
            take_some(&mut ends.inlet, &mut took)?;
        }
    }
    for _ in 0..10u8 {
        ends.outlet.flush();
        take_some(&mut ends.inlet, &mut took)?;
    }
    Ok(took)
}

/// Takes all that the ring gives, up to 100 packets.
fn take_some(inlet: &mut Inlet, took: &mut Vec<Packet>) -> Result<(), Memory> {
    for turn in 0..100u32 {
        if let Some(packet) = inlet.next() {
            if turn % 4 == 3 {
                inlet.put_back(packet);
            } else {
                took.push(packet)?;
            }
        }
    }
    Ok(())
}

#[test]
fn generated_scripts_let_through_what_is_defined(rt: HostRuntime) -> Result<(), Fail> {
    let alloc = rt.alloc();
    for case in 0..300u32 {
        let script = script_of(alloc, case)?;
        let offers = (case % 61) as u8;
        let wanted = let_through(alloc, script.as_slice(), offers)?;
        let mut ends = channel(alloc, script)?;
        let took = carry(alloc, &mut ends, offers, case)?;
        assert_eq!(rt; took.as_slice(), wanted.as_slice(), "case {case}");
    }
    Ok(())
}

#[test]
fn held_packets_fall_due_by_rising_place_behind_the_copies(rt: HostRuntime) -> Result<(), Fail> {
    let alloc = rt.alloc();
    let first = FateAt {
        place: 0,
        fate: Fate::Hold(3),
    };
    let second = FateAt {
        place: 1,
        fate: Fate::Hold(2),
    };
    let third = FateAt {
        place: 2,
        fate: Fate::Drop,
    };
    let fourth = FateAt {
        place: 3,
        fate: Fate::Twice,
    };
    let script = LinkScript::of(vec![in alloc; first, second, third, fourth]?);
    let mut ends = channel(alloc, script)?;
    let took = carry(alloc, &mut ends, 5, 9)?;
    let wanted = [
        packet_at(3),
        packet_at(3),
        packet_at(0),
        packet_at(1),
        packet_at(4),
    ];
    assert_eq!(rt; took.as_slice(), wanted.as_slice());
    Ok(())
}

#[test]
fn a_full_ring_leaves_packets_queued(rt: HostRuntime) -> Result<(), Fail> {
    let alloc = rt.alloc();
    let mut ends = channel(alloc, LinkScript::of(Vec::new(alloc)))?;
    for place in 0..70u8 {
        ends.outlet.reserve()?;
        ends.outlet.offer(packet_at(place));
    }
    ends.outlet.flush();
    let mut took: u32 = 0;
    for _ in 0..100u32 {
        if ends.inlet.next().is_some() {
            took = took.saturating_add(1);
        }
    }
    assert_eq!(rt; took, 64);
    assert_eq!(rt; ends.inlet.empties(), 36);
    ends.outlet.flush();
    assert_eq!(rt; ends.inlet.next(), Some(packet_at(64)));
    Ok(())
}
