//! The names of the rings between hosts.
use std::marker::Brand;

/// Names the rings of a run. It has no function: what a lock gives is known by its type alone, and a type can name a ring only
/// through such a trait.
pub trait Wires {
    ghost use Rattle.std.specs.Prelude.{List};
    ghost use Rattle.scripted_link.specs.Rings.{Wire};

    /// For each site, rising, the ring to it and then the ring from it, as they were made.
    ghost rings: { List Wire };
}

impl Wires for Brand {
    ghost use Rattle.std.specs.Prelude.{[]};

    ghost rings = { [] };
}
