//! The transactions.
ghost use Rattle.std.specs.Prelude.{◌≡◌, [], is_none};
ghost use Rattle.mdb_base.specs.Programs.{bad_register};
ghost use Rattle.scenario_text.specs.Drafts.{with_transaction, as_program};
ghost use Rattle.scenario_text.specs.Reads.{Gives};

use crate::bad::BadWhy;
use crate::entry::Steps;
use crate::fault::Fault;
use fed_rules::{TxLine, TxLines};
use mdb_base::{Act, Program, ProgramErr, SiteId, Step, Tx};
use std::alloc::Global;
use std::collections::BTreeSet;
use std::marker::Model;

/// Transaction lines in their order, no two of one transaction.
#[derive(Drop)]
pub struct TxDraft {
    lines: Vec<TxLine>,
    /// The transactions of these lines.
    numbers: BTreeSet<Tx>,
}

impl Model for TxDraft {
    ghost use Rattle.std.specs.Prelude.{List};
    ghost use Rattle.fed_rules.specs.declared.scenario.TxLine.{TxLine};

    ghost Value = { List TxLine };

    ghost use Rattle.scenario_text.specs.Seen.{IsTxDraft};

    ghost view = { λ d. d.lines.items };

    ghost invariant = { λ d. IsTxDraft d.lines.items d.numbers };
}

impl TxDraft {
    /// No transaction.
    pub fn new(alloc: Global) -> Self
        ensures { result ≡ [] }
    {
        TxDraft {
            lines: Vec::new(alloc),
            numbers: BTreeSet::new(alloc),
        }
    }

    /// Adds a transaction, unless it stands there or its steps make no program. There is at least one step.
    #[tactic(auto, unfolding(crate::specs::Drafts::with_transaction))]
    pub fn add(
        &mut self,
        alloc: Global,
        tx: Tx,
        home: Option<SiteId>,
        steps: &Steps,
    ) -> Result<(), Fault>
        ensures { Gives (λ _. self.new) result (with_transaction tx home steps.now self.old) }
    {
        if self.numbers.contains(&tx) {
            return Err(Fault::Bad(BadWhy::Repeated));
        }
        let program = program_of(alloc, steps.as_slice())?;
        self.lines.reserve(1)?;
        self.numbers.insert(tx)?;
        self.lines.push_reserved(TxLine { tx, home, program });
        Ok(())
    }

    /// The lines, without memory.
    pub fn into_lines(self) -> TxLines
        ensures { result ≡ self }
    {
        let TxDraft { lines, numbers } = self;
        drop(numbers);
        TxLines::of(lines)
    }
}

/// The program of these steps.
#[tactic(auto, unfolding(crate::specs::Drafts::as_program))]
fn program_of(alloc: Global, steps: &[Step]) -> Result<Program, Fault>
    ensures { Gives (λ p. p) result (as_program steps.now) }
{
    if !registers_hold(steps) {
        return Err(Fault::Bad(BadWhy::Register));
    }
    match Program::new(alloc, steps) {
        Ok(program) => Ok(program),
        Err(ProgramErr::TooMany) => Err(Fault::Bad(BadWhy::Many)),
        // There is a step and the registers hold, so that only memory is left.
        Err(_) => Err(Fault::Memory),
    }
}

/// Whether each register is below the number of reads before it.
fn registers_hold(steps: &[Step]) -> bool
    ensures { result ≡ is_none (bad_register 0 0 steps.now) }
{
    let mut reads: usize = 0;
    for step in steps {
        match step.act {
            Act::Get(_) => reads += 1,
            Act::Set(..) => {}
            Act::Add { register, .. } => {
                if usize::from(register) >= reads {
                    return false;
                }
            }
        }
    }
    true
}
