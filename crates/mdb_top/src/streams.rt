//! Where the input comes from, and where the output goes.
ghost use Rattle.std.specs.Prelude.{◌≡◌, ◌≤◌, Bool, ℕ, List, IsTrue, IfOk, OnErr, length, ◌++◌, take};
ghost use Rattle.mdb_base.specs.Counts.{HasCause};
ghost use Rattle.mdb_top.specs.Streams.{Gives, Takes};

use journal_disk::Failed;

/// Gives bytes, from the first one on.
pub trait Source: Drop {
    /// Whether the sources of this type tell what is left. Where they don't, nothing is said of what they give.
    ghost tells: { Bool };

    /// The bytes that are left.
    ghost left: { Self → List ℕ };

    /// How often the source failed. It never falls.
    ghost faults: { Self → ℕ };

    /// Gives the next bytes and answers how many, at most as many as the buffer has. Into a buffer that isn't empty it answers 0 at
    /// the end alone. A failed call gives nothing.
    fn take(&mut self, into: &mut [u8]) -> Result<usize, Failed>
        ensures count { IfOk result (λ count. count ≤ length into.old) }
        ensures given { IfOk result (λ count. IsTrue tells → Gives count (left self.old) (left self.new) (length into.old) into.new) }
        ensures err { OnErr result (IsTrue tells → left self.new ≡ left self.old) }
        ensures cause { HasCause (faults self.old) (faults self.new) result };
}

/// Takes bytes.
pub trait Sink: Drop {
    /// Whether the sinks of this type tell what was written. Where they don't, nothing is said of what they took.
    ghost tells: { Bool };

    /// The bytes that were written.
    ghost written: { Self → List ℕ };

    /// How often the sink failed. It never falls.
    ghost faults: { Self → ℕ };

    /// Writes a front of the piece and answers how many bytes: at least one of a piece that isn't empty. A failed call writes nothing.
    fn put(&mut self, piece: &[u8]) -> Result<usize, Failed>
        ensures count { IfOk result (λ count. Takes count (length piece.now)) }
        ensures written { IfOk result (λ count. IsTrue tells → written self.new ≡ written self.old ++ take count piece.now) }
        ensures err { OnErr result (IsTrue tells → written self.new ≡ written self.old) }
        ensures cause { HasCause (faults self.old) (faults self.new) result };
}
