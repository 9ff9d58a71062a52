//! The order of attempts is the order of their numbers.
ghost use Rattle.std.specs.Prelude.{◌↔◌, ◌≡◌, ◌<◌, true};
ghost use Rattle.field_bytes.specs.Fields.{IsTid};
ghost use Rattle.mdb_base.specs.declared.names.Tid.{Tid};
ghost use Rattle.mdb_base.specs.Names.{tid_before};
ghost use Rattle.record_fields.specs.Sums.{tid_number};

/// Lists that rise by the numbers of their attempts rise by transaction, and then by attempt.
pub fn attempts_rise_by_their_numbers()
    ensures { (a b : Tid) → IsTid a → IsTid b → (tid_before a b ≡ true) ↔ (tid_number a < tid_number b) }
{}
