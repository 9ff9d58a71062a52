//! Edges without a cycle.
ghost use Rattle.std.specs.Prelude.{List, ◌∷◌};
ghost use Rattle.order_laws.specs.Chains.{In, Distinct, Acyclic, Within, Way, Path};
ghost use Rattle.order_laws.specs.Orders.{Before};

/// What has edges to others of its kind.
pub trait Node {
    /// An edge leads from the first to the second.
    ghost edge: { Self → Self → Type 0 };
}

/// A node through which no cycle leads over the others can be added: the edges among all of them have no cycle still.
pub fn cycle_free_when_accepted<N: Node>()
    ensures { (g : N) (others : List N) → Acyclic (Within N.edge others) → (Way N.edge others g g → ⊥) → Acyclic (Within N.edge (g ∷ others)) }
{}

/// Where each edge becomes, under a naming, an edge of a relation without a cycle, there is no cycle.
pub fn cycle_free_when_mapped<N: Node, M: Node>()
    ensures { (name : N → M) → ((a b : N) → N.edge a b → M.edge (name a) (name b)) → Acyclic M.edge → Acyclic N.edge }
{}

/// Edges that all lead forwards in a list that names no node twice have no cycle.
pub fn cycle_free_when_ordered<N: Node>()
    ensures { (o : List N) → Distinct o → ((a b : N) → N.edge a b → Before o a b) → Acyclic N.edge }
{}

/// Without a cycle it can't be that to each node of a list, which isn't empty, a chain leads from a node of that list.
pub fn has_source<N: Node>()
    ensures { Acyclic N.edge → (x : N) (xs : List N) → ((m : N) → In m (x ∷ xs) → ((p : N) → In p (x ∷ xs) → Path N.edge p m → ⊥) → ⊥) → ⊥ }
{}
