//! What scripts do to packets of any kind. Each law is the contract of a function that does nothing.
ghost use Rattle.scripted_link.specs.Laws.{SeePlacesAlone, WereOffered};

/// A script looks at the places of packets and not into them: what it lets through of renamed packets are the renamed ones.
pub fn scripts_see_places_alone<A, B>()
    ensures { SeePlacesAlone A B }
{}

/// Every packet that a script lets through was offered.
pub fn what_is_let_through_was_offered<A>()
    ensures { WereOffered A }
{}
