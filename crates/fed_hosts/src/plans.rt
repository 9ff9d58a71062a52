//! The name of a run.
use scripted_link::Wires;
use std::marker::Brand;

/// Names what is settled of a run before its threads start, beside its rings. It has no function: what a lock gives is known by its
/// type alone, and a type can name the sites of a run only through such a trait.
pub trait Plan: Wires {
    ghost use Rattle.std.specs.Prelude.{List};
    ghost use Rattle.host_laws.specs.CoordPlans.{CoordPlan};
    ghost use Rattle.host_laws.specs.Plans.{SitePlan};

    /// What is settled of each declared site, by rising number; the rings stand in the same order.
    ghost sites: { List SitePlan };

    /// What is settled of the coordinator.
    ghost coordinator: { CoordPlan };
}

impl Plan for Brand {
    ghost use Rattle.std.specs.Prelude.{[], None};
    ghost use Rattle.fed_rules.specs.Policies.{always};

    ghost sites = { [] };

    ghost coordinator = { record { terms = record { protocols = []; policy = always }; programs = λ tx. None; stops = []; faults = 0 } };
}
