//! The messages that a host sent have numbers that fit their bytes, by their types.
ghost use Rattle.mdb_base.specs.Words.{Each};
ghost use Rattle.host_laws.specs.Written.{FitsFromSite, FitsToSite};
ghost use Rattle.fed_hosts.specs.Ports.{IsWritten};

use crate::ports::Port;
use fed_rules::{FromSite, ToSite};
use host_laws::{from_site_fits, to_site_fits};

/// The numbers of each message from a site have their bytes.
pub(crate) fn messages_from_fit(messages: &[FromSite])
    ensures { Each FitsFromSite messages.now }
{
    for message in messages {
        from_site_fits(*message);
    }
}

/// The numbers of each message to a site have their bytes.
fn messages_to_fit(messages: &[ToSite])
    ensures { Each FitsToSite messages.now }
{
    for message in messages {
        to_site_fits(*message);
    }
}

/// So it is at each port.
pub(crate) fn ports_fit(ports: &[Port])
    ensures { Each IsWritten ports.now }
{
    for port in ports {
        messages_to_fit(port.to.as_slice());
    }
}
