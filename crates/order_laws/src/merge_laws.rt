//! Merges of several orders, and the least of them. `same` is any test that tells items apart, and `before` any test that ranks them.
ghost use Rattle.std.specs.Prelude.{◌≡◌, ◌↔◌, Bool, List, []};
ghost use Rattle.mdb_base.specs.Words.{Each};
ghost use Rattle.order_laws.specs.Chains.{Distinct, Acyclic};
ghost use Rattle.order_laws.specs.Orders.{Union, TellsApart, Ranks};
ghost use Rattle.order_laws.specs.Merge.{IsMerge, IsLeastOrder};
ghost use Rattle.order_laws.specs.Least.{IsLeastMerge, least_merge};

/// Orders without a cycle have a least merge, the one that is computed.
pub fn least_is_found<T>()
    ensures { (same before : T → T → Bool) → TellsApart same → Ranks before → (orders : List (List T)) → Acyclic (Union orders) → IsLeastOrder before orders [] (least_merge same before orders) }
{}

/// There is only one least merge.
pub fn least_is_one<T>()
    ensures { (same before : T → T → Bool) → TellsApart same → Ranks before → (orders : List (List T)) (o p : List T) → IsLeastOrder before orders [] o → IsLeastOrder before orders [] p → o ≡ p }
{}

/// The least merge is a merge.
pub fn least_is_merge<T>()
    ensures { (same before : T → T → Bool) → TellsApart same → (orders : List (List T)) (o : List T) → IsLeastOrder before orders [] o → IsMerge same orders o }
{}

/// The least merge by what is placed is the one by what is left.
pub fn least_is_said_twice<T>()
    ensures { (same before : T → T → Bool) → TellsApart same → (orders : List (List T)) (o : List T) → IsLeastOrder before orders [] o ↔ IsLeastMerge same before orders o }
{}

/// A merge of orders that name no item twice names none twice.
pub fn merge_is_once<T>()
    ensures { (same : T → T → Bool) (orders : List (List T)) (o : List T) → Each Distinct orders → IsMerge same orders o → Distinct o }
{}

/// Orders that name no item twice and have a merge have no cycle together.
pub fn merges_are_cycle_free<T>()
    ensures { (same : T → T → Bool) (orders : List (List T)) (o : List T) → Each Distinct orders → IsMerge same orders o → Acyclic (Union orders) }
{}
