//! The calls of a local engine.
use crate::seal_err::SealErr;
use fed_rules::{Kept, Sealed};
use mdb_base::{Key, Memory, Puts, Reply, Tid};
use std::alloc::Global;

/// A local engine: it runs the transactions of one site by one rule, and seals, commits and aborts them.
///
/// An engine stands for a start and the list of its calls with their answers since then. A call asks of some list that the
/// engine stands for that it may come there. It then adds its line to every such list, and its answer is the rule's on it.
/// A call without memory leaves every list as it was. What a run's end needs is reserved before, so that `commit`, `abort`,
/// `unbegin` and `unseal` always succeed.
pub trait LocalEngine: Drop {
    ghost use Rattle.std.specs.Prelude.{◌≡◌, List, [], IfOk, OnOk, OnErr, IfErr};
    ghost use Rattle.mdb_base.specs.declared.names.Engine.{Engine};
    ghost use Rattle.mdb_base.specs.declared.acts.PlainAct.TheVariants.{Read, Write};
    ghost use Rattle.fed_rules.specs.Runs.{Start, EngineLine, Begins, Acts, Takes, Seals, Commits, Aborts};
    ghost use Rattle.fed_rules.specs.Runs.{rows as rows_after};
    ghost use Rattle.fed_rules.specs.EngineLines.{IsStart, IsRight};
    ghost use Rattle.engine_contract.specs.Past.{SomePast, AddsLine, KeepsPast, DropsLine, EachPast};
    ghost use Rattle.engine_contract.specs.Calls.{CanBegin, CanAct, CanTake, CanSeal, CanCommit, CanAbort};
    ghost use Rattle.engine_contract.specs.Calls.{HasJustBegun, HasJustSealed, SealsRun, FailsToSeal, HidesNone, start_from};

    /// The rule that it follows.
    ghost kind: { Self → Engine };

    /// The starts and the lists of engine lines, the newest first, that it stands for.
    ghost stands: { Self → Start → List EngineLine → Type 0 };

    /// Begins a run of the attempt, and answers the number drawn, which is its age.
    fn begin(&mut self, alloc: Global, tid: Tid) -> Result<u64, Memory>
        requires { SomePast stands self.old (CanBegin tid) }
        ensures begun { IfOk result (λ n. AddsLine stands self.old (Begins tid n) self.new) }
        ensures memory { OnErr result (KeepsPast stands self.old self.new) };

    /// Reads a key for a live run.
    fn read(&mut self, alloc: Global, tid: Tid, key: Key) -> Result<Reply, Memory>
        requires { SomePast stands self.old (CanAct tid) }
        ensures answered { IfOk result
            (λ reply. AddsLine stands self.old (Acts tid (Read key) reply) self.new) }
        ensures memory { OnErr result (KeepsPast stands self.old self.new) };

    /// Writes a key for a live run. The write is private until the run commits.
    fn write(&mut self, alloc: Global, tid: Tid, key: Key, value: u64) -> Result<Reply, Memory>
        requires { SomePast stands self.old (CanAct tid) }
        ensures answered { IfOk result
            (λ reply. AddsLine stands self.old (Acts tid (Write key value) reply) self.new) }
        ensures memory { OnErr result (KeepsPast stands self.old self.new) };

    /// Takes the site's ticket for a live run that has none (Georgakopoulos, Rusinkiewicz and Sheth 1994).
    fn take(&mut self, alloc: Global, tid: Tid) -> Result<Reply, Memory>
        requires { SomePast stands self.old (CanTake tid) }
        ensures answered { IfOk result (λ reply. AddsLine stands self.old (Takes tid reply) self.new) }
        ensures memory { OnErr result (KeepsPast stands self.old self.new) };

    /// Seals a live run: from now on it can always be committed or aborted. A refused one is aborted. Want of memory hides no
    /// refusal: it is the answer only where the rule lets the run pass.
    fn seal(&mut self, alloc: Global, tid: Tid) -> Result<Sealed, SealErr>
        requires { SomePast stands self.old (CanSeal tid) }
        ensures sealed { IfOk result (λ s. AddsLine stands self.old (Seals tid s.number) self.new) }
        ensures given { IfOk result (λ s. EachPast stands self.old (SealsRun tid s)) }
        ensures failed { IfErr result (λ e. FailsToSeal stands self.old tid e self.new) }
        ensures unhidden { IfErr result (λ e. HidesNone stands self.old tid e) };

    /// Takes back the begin of the attempt, which is the newest line, with its number.
    fn unbegin(&mut self, tid: Tid)
        requires { SomePast stands self.old (HasJustBegun tid) }
        ensures { DropsLine stands self.old (Begins tid) self.new };

    /// Takes back the sealing of the attempt, which is the newest line, with its number and its ticket's publication.
    fn unseal(&mut self, tid: Tid)
        requires { SomePast stands self.old (HasJustSealed tid) }
        ensures { DropsLine stands self.old (Seals tid) self.new };

    /// Ends a sealed run, whose writes are in the table from now on.
    fn commit(&mut self, tid: Tid)
        requires { SomePast stands self.old (CanCommit tid) }
        ensures { AddsLine stands self.old (Commits tid) self.new };

    /// Ends an unended run without its writes.
    fn abort(&mut self, tid: Tid)
        requires { SomePast stands self.old (CanAbort tid) }
        ensures { AddsLine stands self.old (Aborts tid) self.new };

    /// Starts an epoch: with these rows, the prepared transactions that are in doubt, the greatest number drawn, and the
    /// published ticket with its owner. All else is forgotten.
    fn restart(
        &mut self,
        alloc: Global,
        rows: &Puts,
        doubtful: &[Kept],
        counter: u64,
        published: u64,
        owner: Option<Tid>,
    ) -> Result<(), Memory>
        requires { IsStart (start_from (kind self.old) rows.now doubtful.now counter published owner) }
        ensures started { OnOk result (EachPast stands self.old (λ start lines.
            stands self.new (start_from start.kind rows.now doubtful.now counter published owner) [])) }
        ensures memory { OnErr result (KeepsPast stands self.old self.new) };

    /// The table: the rows of the start and every key that a committed run wrote since.
    fn rows(&self, alloc: Global) -> Result<Puts, Memory>
        ensures { IfOk result
            (λ table. EachPast stands self.now (λ start lines. table ≡ rows_after start lines)) };

    /// Each start is of its kind.
    ghost of_kind: { (engine : Self) (start : Start) (lines : List EngineLine) →
        stands engine start lines → start.kind ≡ kind engine };

    /// Each start is one that an epoch may start from.
    ghost starts: { (engine : Self) (start : Start) (lines : List EngineLine) →
        stands engine start lines → IsStart start };

    /// Each answer is the rule's on the lines before it.
    ghost right: { (engine : Self) (start : Start) (lines : List EngineLine) →
        stands engine start lines → IsRight start lines };
}
