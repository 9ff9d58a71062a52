//! The search for a cycle.
ghost use Rattle.std.specs.Prelude.{◌≡◌, List, Option, Some, None};
ghost use Rattle.mdb_base.specs.Words.{Each};
ghost use Rattle.order_laws.specs.Chains.{In, Way};
ghost use Rattle.order_laws.specs.Search.{path, Linked, Walk};

/// The edges that the search finds are those of a chain over these nodes. Where it finds none, there is no chain over them.
pub fn search_is_exact<N, K>()
    ensures found { (edge : N → N → Option K) (nodes : List N) (a b : N) (es : List K) → path edge nodes a b ≡ Some es → (middle : List N) × Each (λ x. In x nodes) middle × Walk edge a middle b es }
    ensures none { (edge : N → N → Option K) (nodes : List N) (a b : N) → path edge nodes a b ≡ None → Way (Linked edge) nodes a b → ⊥ }
{}
