//! Programs, and the next plain act of a program that was begun.
ghost use Rattle.std.specs.Prelude.{◌≡◌, ℕ, ◌<◌, ◌≤◌, ◌↔◌, [], length, take, IfOk, IsErrOf, Some, slice_get};

use crate::acts::{PlainAct, Step};
use crate::names::SiteId;
use crate::plain::first_bad_register;
use std::alloc::{AllocError, Global};
use std::marker::Model;
use thiserror::Error;

/// The most steps that a program may have.
pub const MOST_STEPS: usize = 32;

/// A list of 1 to 32 steps, in which each register is below the number of reads before it.
#[derive(Drop)]
pub struct Program {
    steps: Vec<Step>,
}

/// Why a list of steps is no program.
#[derive(Clone, Copy, Debug, PartialEq, Eq, Drop, Error)]
pub enum ProgramErr {
    #[error("a program has at least one step")]
    Empty,
    #[error("a program has at most 32 steps")]
    TooMany,
    #[error("step {step} adds to a register that was not read before it")]
    Register { step: u8 },
    #[error("no memory")]
    Memory,
}

/// The next step of a program, as a plain act at its site.
#[derive(Clone, Copy, Debug, PartialEq, Eq)]
pub struct Next {
    pub site: SiteId,
    pub act: PlainAct,
}

impl Model for Program {
    ghost use Rattle.std.specs.Prelude.{List};
    ghost use Rattle.mdb_base.specs.declared.acts.Step.{Step};
    ghost use Rattle.mdb_base.specs.Programs.{IsProgram};

    ghost Value = { List Step };

    ghost view = { λ p. p.steps.items };

    ghost invariant = { λ p. IsProgram p.steps.items };
}

/// The copy is the same program, in memory of its own. Its steps aren't checked again.
impl Clone for Program {
    ghost is_clone = { λ program copy. copy ≡ program };

    fn clone(&self) -> Result<Program, AllocError> {
        let alloc = *self.steps.allocator();
        Ok(Program {
            steps: Vec::from_slice(alloc, self.steps.as_slice())?,
        })
    }
}

impl Program {
    ghost use Rattle.mdb_base.specs.Programs.{IsProgram, bad_register, most_steps};

    /// The program of these steps. It is refused as empty, else as too long, else at the first step whose register isn't below
    /// the number of reads before it (this project's profile).
    pub fn new(alloc: Global, steps: &[Step]) -> Result<Program, ProgramErr>
        ensures program { IfOk result (λ program. program ≡ steps.now) }
        ensures empty { IsErrOf result ProgramErr.Empty ↔ (steps.now ≡ []) }
        ensures too_many { IsErrOf result ProgramErr.TooMany ↔ (most_steps < length steps.now) }
        ensures register { (step : ℕ) → IsErrOf result (ProgramErr.Register step) ↔ ((length steps.now ≤ most_steps) × (bad_register 0 0 steps.now ≡ Some step)) }
    {
        if steps.is_empty() {
            return Err(ProgramErr::Empty);
        }
        if steps.len() > MOST_STEPS {
            return Err(ProgramErr::TooMany);
        }
        match first_bad_register(steps) {
            Some(step) => Err(ProgramErr::Register { step }),
            None => match steps.to_vec(alloc) {
                Ok(steps) => Ok(Program { steps }),
                Err(_) => Err(ProgramErr::Memory),
            },
        }
    }

    /// How many steps there are, 1 to 32.
    pub fn len(&self) -> usize
        ensures count { result ≡ length self.now }
        ensures program { IsProgram self.now }
    {
        self.steps.len()
    }

    /// The step at this place, counted from 0.
    pub fn at(&self, place: usize) -> &Step
        requires { place < length self.now }
        ensures { slice_get self.now place ≡ Some result.now }
    {
        &self.steps[place]
    }

    /// The steps in program order.
    pub fn steps(&self) -> &[Step]
        ensures steps { result.now ≡ self.now }
        ensures program { IsProgram self.now }
    {
        self.steps.as_slice()
    }
}
