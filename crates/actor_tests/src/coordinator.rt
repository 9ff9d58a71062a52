//! A coordinator of three sites on a disk in memory, and what it is asked.
ghost use Rattle.std.specs.Prelude.{◌≡◌, ◌≤◌, IfOk};
ghost use Rattle.mdb_base.specs.Words.{Each, each_of};
ghost use Rattle.journal_disk.specs.MemDisk.{mem_image};
ghost use Rattle.journal_disk.specs.Disk.{no_bytes};
ghost use Rattle.global_manager.specs.Stands.{IsDeclared};
ghost use Rattle.actor_tests.specs.OfThree.{ComesFromThree, IsOfThree, is_of_three, three};

use fed_rules::{CoordStep, FromSite, TxLine};
use global_exec::TakePolicy;
use global_manager::{CoordAsk, GlobalManager, StepErr};
use journal_disk::MemDisk;
use mdb_base::{Act, Key, Program, Reply, SiteId, Step, Tid, Tx};
use presumptions::{Participant, Participants, Protocol};
use std::alloc::Global;
use std::test::Fail;

/// What the coordinator is asked. Each message and question is about the first attempt of a transaction, and comes from a site of 1 to 3.
#[derive(Clone, Copy)]
pub(super) enum Deed {
    Go(u32),
    /// The site did the operation of the transaction.
    Did(u8, u32),
    /// It took this ticket behind that.
    Ticket(u8, u32, u64),
    /// It votes yes with this ticket.
    Votes(u8, u32, u64),
    Acks(u8, u32),
    Inquires(u8, u32),
    Again(u32),
    Late(u32),
    Trip(u32, u64),
    Halt(u64),
    Back,
    Check,
}

// The site of this number.
fn site_of(number: u8) -> SiteId
    ensures least { 1 ≤ result.0 }
    ensures most { result.0 ≤ 3 }
{
    match number {
        1 => SiteId(1),
        2 => SiteId(2),
        _ => SiteId(3),
    }
}

fn first_of(tx: u32) -> Tid {
    Tid {
        tx: Tx(tx),
        attempt: 0,
    }
}

// What a site did behind so many operations.
fn did(tx: u32, n: u8, reply: Reply) -> FromSite {
    FromSite::Did {
        tid: first_of(tx),
        epoch: 1,
        n,
        reply,
    }
}

fn take(number: u8, message: FromSite) -> CoordAsk
    ensures { ComesFromThree result }
{
    let site = site_of(number);
    CoordAsk::Take { site, message }
}

fn ask_of(deed: Deed) -> CoordAsk
    ensures { ComesFromThree result }
{
    match deed {
        Deed::Go(tx) => CoordAsk::Go(Tx(tx)),
        Deed::Did(site, tx) => take(site, did(tx, 0, Reply::Done)),
        Deed::Ticket(site, tx, number) => take(site, did(tx, 1, Reply::Ticket(number))),
        Deed::Votes(site, tx, ticket) => {
            let (tid, yes) = (first_of(tx), Some(ticket));
            take(site, FromSite::Vote { tid, yes })
        }
        Deed::Acks(site, tx) => take(site, FromSite::Ack { tid: first_of(tx) }),
        Deed::Inquires(site, tx) => take(site, FromSite::Inquiry { tid: first_of(tx) }),
        Deed::Again(tx) => CoordAsk::Again(first_of(tx)),
        Deed::Late(tx) => CoordAsk::Late(first_of(tx)),
        Deed::Trip(calls, cut) => CoordAsk::Trip { calls, cut },
        Deed::Halt(cut) => CoordAsk::Halt { cut },
        Deed::Back => CoordAsk::Back,
        Deed::Check => CoordAsk::Check,
    }
}

/// A coordinator of the sites 1 to 3 is asked this.
pub(super) fn asks<P: TakePolicy>(
    manager: &mut GlobalManager<P>,
    alloc: Global,
    disk: &mut MemDisk,
    deed: Deed,
) -> Result<CoordStep, StepErr>
    requires { IsOfThree P.policy manager.old disk.old }
    ensures { IsOfThree P.policy manager.new disk.new }
{
    manager.ask(alloc, disk, ask_of(deed))
}

/// It is asked this, whatever it answers.
pub(super) fn does<P: TakePolicy>(
    manager: &mut GlobalManager<P>,
    alloc: Global,
    disk: &mut MemDisk,
    deed: Deed,
) -> Result<(), StepErr>
    requires { IsOfThree P.policy manager.old disk.old }
    ensures { IsOfThree P.policy manager.new disk.new }
{
    drop(asks(manager, alloc, disk, deed)?);
    Ok(())
}

const fn set(site: u8, key: u16, value: u64) -> Step {
    Step {
        site: SiteId(site),
        act: Act::Set(Key(key), value),
    }
}

// Whether each step is at a site of 1 to 3.
fn are_at_three(steps: &[Step]) -> bool
    ensures { result ≡ each_of (λ step. is_of_three step.site) steps.now }
{
    steps
        .iter()
        .all(|step| step.site.0 >= 1 && step.site.0 <= 3)
}

// The line of a global transaction.
fn line_of(alloc: Global, number: u32, steps: &[Step]) -> Result<TxLine, Fail>
    ensures { IfOk result (IsDeclared three) }
{
    if number < 1 || number > 1024 || !are_at_three(steps) {
        return Err(Fail::from("the line is out of range"));
    }
    let program = Program::new(alloc, steps)?;
    Ok(TxLine {
        tx: Tx(number),
        home: None,
        program,
    })
}

// The lines of three transactions: the first one sets a key at two sites, the others set one each.
fn lines(alloc: Global) -> Result<Vec<TxLine>, Fail>
    ensures { IfOk result (λ lines. Each (IsDeclared three) lines.items) }
{
    let first = [set(1, 1, 11), set(2, 2, 22)];
    let second = [set(1, 3, 33)];
    let third = [set(3, 4, 44)];
    let mut lines = Vec::new(alloc);
    let mut number: u32 = 0;
    for steps in [first.as_slice(), second.as_slice(), third.as_slice()] {
        number = number.saturating_add(1);
        let line = line_of(alloc, number, steps)?;
        lines.push(line)?;
    }
    Ok(lines)
}

/// The sites 1 to 3, each of another protocol.
pub(super) fn sites(alloc: Global) -> Result<Participants, Fail>
    ensures { IfOk result (λ sites. sites ≡ three) }
{
    let first = Participant {
        site: SiteId(1),
        protocol: Protocol::Nothing,
    };
    let second = Participant {
        site: SiteId(2),
        protocol: Protocol::Abort,
    };
    let third = Participant {
        site: SiteId(3),
        protocol: Protocol::Commit,
    };
    Ok(Participants::of(vec![in alloc; first, second, third]?))
}

/// A new manager of these sites, with three transactions, on an empty disk.
pub(super) fn manager_on<P: TakePolicy>(
    alloc: Global,
    disk: &MemDisk,
    policy: P,
) -> Result<GlobalManager<P>, Fail>
    requires { mem_image disk.now ≡ no_bytes }
    ensures { IfOk result (λ manager. IsOfThree P.policy manager disk.now) }
{
    let _ = disk;
    let lines = lines(alloc)?;
    let sites = sites(alloc)?;
    let manager = GlobalManager::new(alloc, sites, policy, &lines)?;
    Ok(manager)
}
