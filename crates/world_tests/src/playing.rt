//! How the deeds of a session are done.
use super::deeds::{Deed, Mail, Outcome, Session, packet};
use super::rings::Link;
use fed_rules::Command;
use mdb_base::Memory;
use scripted_link::Outlet;
use std::process::Abort;
use std::test::Fail;

/// The host of a site or of the coordinator.
pub(super) trait Host: Drop {
    /// A client asks it.
    fn ask(&mut self, command: Command) -> Outcome;

    /// It has a turn.
    fn turn(&mut self) -> Outcome;

    /// It leaves the lines of the text.
    fn leaves<R: Abort + AllocGlobal>(self, rt: &R, text: &str) -> Result<(), Fail>;
}

// A message is sent on its way.
fn send(outlet: &mut Outlet, mail: Mail) -> Result<Outcome, Memory> {
    outlet.reserve()?;
    outlet.offer(packet(mail));
    outlet.flush();
    Ok(Outcome::Sent)
}

// What comes of a deed.
fn done<H: Host>(host: &mut H, links: &mut [Link], deed: Deed) -> Result<Outcome, Memory> {
    match deed {
        Deed::Ask(command) => Ok(host.ask(command)),
        Deed::Turn => Ok(host.turn()),
        Deed::Send(place, mail) => match links.get_mut(place) {
            Some(link) => send(&mut link.outlet, mail),
            None => Ok(Outcome::Nothing),
        },
    }
}

// Of each deed comes what is wanted.
fn play<H: Host>(
    rt: &impl Abort,
    host: &mut H,
    links: &mut [Link],
    deeds: &[(Deed, Outcome)],
) -> Result<(), Memory> {
    for (place, (deed, wanted)) in deeds.iter().enumerate() {
        let outcome = done(host, links, *deed)?;
        assert!(rt; outcome == *wanted, "deed {place}");
    }
    Ok(())
}

// Whether the next packet that comes out of the ring of this place bears this message.
fn comes(links: &mut [Link], place: usize, mail: Mail) -> bool {
    match links.get_mut(place) {
        Some(link) => link.inlet.next() == Some(packet(mail)),
        None => false,
    }
}

// These messages come out of the rings.
fn are_sent(rt: &impl Abort, links: &mut [Link], sent: &[(usize, Mail)]) {
    for (place, mail) in sent {
        assert!(rt; comes(links, *place, *mail), "ring {place}");
    }
}

/// A host that did nothing yet has a session.
pub(super) fn played<H: Host>(
    rt: &(impl Abort + AllocGlobal),
    host: H,
    links: &mut [Link],
    session: &Session,
) -> Result<(), Fail> {
    let mut host = host;
    play(rt, &mut host, links, session.deeds)?;
    are_sent(rt, links, session.sent);
    host.leaves(rt, session.lines)
}
