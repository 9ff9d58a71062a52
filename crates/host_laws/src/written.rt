//! Each message that a program holds has numbers that fit their bytes, by its type.
ghost use Rattle.host_laws.specs.Written.{FitsFromSite, FitsToSite};

use fed_rules::{FromSite, ToSite};

/// The numbers of a message to a site have their bytes.
pub fn to_site_fits(message: ToSite)
    ensures { FitsToSite message }
{}

/// The numbers of a message from a site have their bytes.
pub fn from_site_fits(message: FromSite)
    ensures { FitsFromSite message }
{}
