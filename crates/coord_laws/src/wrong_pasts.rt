//! Why attempts are numbered.
ghost use Rattle.coord_laws.specs.WrongPasts.{BeginsTwice};

/// Where a `go` may be of an attempt that was begun before, an attempt begins twice.
pub fn repeated_attempts_begin_twice()
    ensures { BeginsTwice }
{}
