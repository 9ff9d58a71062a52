//! The ticket graph (Georgakopoulos, Rusinkiewicz, Sheth 1994).
ghost use Rattle.std.specs.Prelude.{◌≡◌, List, ◌∷◌, Option, Some, None};
ghost use Rattle.mdb_base.specs.declared.replies.Edge.{Edge};
ghost use Rattle.mdb_base.specs.Names.{same_tid, tid_before};
ghost use Rattle.order_laws.specs.Orders.{TellsApart, Ranks};
ghost use Rattle.order_laws.specs.Search.{cycle_through};
ghost use Rattle.order_laws.specs.Tickets.{Ticketed, IsCycle, OneEach, HasNoCycle, edge_between};

/// What the search finds is a cycle through the attempt, and where it finds nothing there is none, provided that the attempts differ.
pub fn cycles_are_found()
    ensures found { (g : Ticketed) (others : List Ticketed) (es : List Edge) → cycle_through edge_between g others ≡ Some es → IsCycle (g ∷ others) g.tid es }
    ensures none { (g : Ticketed) (others : List Ticketed) → OneEach (g ∷ others) → cycle_through edge_between g others ≡ None → (es : List Edge) → IsCycle (g ∷ others) g.tid es → ⊥ }
{}

/// A graph without a cycle to which an attempt is added through which no cycle leads has no cycle.
pub fn graph_stays_cycle_free()
    ensures { (g : Ticketed) (others : List Ticketed) → OneEach (g ∷ others) → HasNoCycle others → ((es : List Edge) → IsCycle (g ∷ others) g.tid es → ⊥) → HasNoCycle (g ∷ others) }
{}

/// Attempts are told apart by their numbers, and ranked by transaction and then by attempt.
pub fn tids_are_ranked()
    ensures apart { TellsApart same_tid }
    ensures ranked { Ranks tid_before }
{}
