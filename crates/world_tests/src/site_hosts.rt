//! Sessions of a site's host.
ghost use Rattle.std.specs.Prelude.{◌≡◌, ◌∷◌, [], IfOk};
ghost use Rattle.mdb_base.specs.Words.{Each};
ghost use Rattle.journal_disk.specs.MemDisk.{mem_faults, mem_size};
ghost use Rattle.local_dbms.specs.Stands.{IsNamed};
ghost use Rattle.fed_hosts.specs.Keeps.{IsStop};
ghost use Rattle.world_tests.specs.HostSessions.{AreNew, plan_of, wires_of};

use super::deeds::{Deed, FIRST, GLOBAL, LOCAL, Mail, Outcome, Session, TID, asked, turned};
use super::lines::are_left;
use super::playing::{Host, played};
use super::rings::{Link, new_rings};
use any_engine::AnyEngine;
use fed_hosts::{HostEnds, NoGate, Plan, SiteHost};
use fed_rules::{Command, FromSite, SiteLine, StopLine, ToSite, TxLine};
use journal_disk::MemDisk;
use local_dbms::LocalDbms;
use mdb_base::{Act, Engine, Key, PlainAct, Program, Puts, Reply, Step, Tid, Tx};
use presumptions::Protocol;
use scripted_link::Ends;
use std::alloc::Global;
use std::fmt::Write;
use std::marker::Brand;
use std::process::Abort;
use std::test::Fail;

impl<N: Plan> Host for SiteHost<AnyEngine, MemDisk, N> {
    fn ask(&mut self, command: Command) -> Outcome {
        match command {
            Command::Begin(tx) => asked(self.begin(tx, &NoGate)),
            Command::Step(tx) => asked(self.step(tx, &NoGate)),
            Command::Commit(tx) => asked(self.commit(tx, &NoGate)),
            Command::Abort(tx) => asked(self.abort(tx, &NoGate)),
            Command::Fate(tx) => asked(self.fate(tx, &NoGate)),
            _ => Outcome::Nothing,
        }
    }

    fn turn(&mut self) -> Outcome {
        turned(self.turn(&NoGate))
    }

    fn leaves<R: Abort + AllocGlobal>(self, rt: &R, text: &str) -> Result<(), Fail> {
        let parts = self.finish();
        are_left(rt, parts.lines.as_slice(), text)
    }
}

// The host of a new site of two-phase locking has a session, with these transactions, on this empty disk, with these new rings.
fn host_plays<N: Plan>(
    rt: &(impl Abort + AllocGlobal),
    disk: MemDisk,
    transactions: &[TxLine],
    stops: Vec<StopLine>,
    rings: (Ends, Ends),
    session: &Session,
) -> Result<(), Fail>
    requires empty { mem_size disk ≡ 0 }
    requires named { Each IsNamed transactions.now }
    requires stops { Each (IsStop 1) stops.items }
    requires rings { AreNew rings }
    requires sites { N.sites ≡ plan_of transactions.now stops.items (mem_faults disk) ∷ [] }
    requires wires { N.rings ≡ wires_of rings }
{
    let (alloc, mut disk) = (rt.alloc(), disk);
    let items = Puts::of(Vec::new(alloc));
    let local = AnyEngine::new(alloc, Engine::Locking, &items)?;
    let line = SiteLine {
        site: FIRST,
        engine: Engine::Locking,
        protocol: Protocol::Nothing,
    };
    let dbms = LocalDbms::set_up(alloc, &mut disk, line, items, local, transactions)?;
    let (to, from) = rings;
    let ends = HostEnds {
        site: FIRST,
        inlet: to.inlet,
        outlet: from.outlet,
    };
    let mut links = [Link {
        outlet: to.outlet,
        inlet: from.inlet,
    }];
    let host = SiteHost::<AnyEngine, MemDisk, N>::new(alloc, dbms, disk, stops, ends);
    played(rt, host, &mut links, session)
}

// The local transaction, which gets key 5 and sets it to 7.
fn transaction(alloc: Global) -> Result<TxLine, Fail>
    ensures { IfOk result (λ line. IsNamed line) }
{
    let steps = [
        Step {
            site: FIRST,
            act: Act::Get(Key(5)),
        },
        Step {
            site: FIRST,
            act: Act::Set(Key(5), 7),
        },
    ];
    let program = Program::new(alloc, &steps)?;
    Ok(TxLine {
        tx: LOCAL,
        home: Some(FIRST),
        program,
    })
}

// The host of a new site, with the local transaction, has a session.
fn plays(rt: &(impl Abort + AllocGlobal), session: &Session) -> Result<(), Fail>
    requires { Each (IsStop 1) session.now.stops.now }
{
    let alloc = rt.alloc();
    let transactions = [transaction(alloc)?];
    let mut stops = Vec::new(alloc);
    stops.extend_from_slice(session.stops)?;
    let disk = MemDisk::failing(alloc, session.fails)?;
    let rings = new_rings(alloc)?;
    host_plays::<Brand>(rt, disk, &transactions, stops, rings, session)
}

const BEGIN: Deed = Deed::Ask(Command::Begin(LOCAL));

const STEP: Deed = Deed::Ask(Command::Step(LOCAL));

const COMMIT: Deed = Deed::Ask(Command::Commit(LOCAL));

const ABORT: Deed = Deed::Ask(Command::Abort(LOCAL));

const FATE: Deed = Deed::Ask(Command::Fate(LOCAL));

const MADE: (Deed, Outcome) = (Deed::Turn, Outcome::Made);

const IDLE: (Deed, Outcome) = (Deed::Turn, Outcome::Idle);

#[test]
fn calls_about_a_local_transaction_make_lines(rt: HostRuntime) -> Result<(), Fail> {
    let session = Session {
        fails: &[],
        stops: &[],
        deeds: &[
            (BEGIN, Outcome::Answered),
            (STEP, Outcome::Answered),
            (COMMIT, Outcome::Answered),
            (STEP, Outcome::Answered),
            (Deed::Ask(Command::Begin(GLOBAL)), Outcome::Unknown),
            (COMMIT, Outcome::Answered),
            (FATE, Outcome::Answered),
        ],
        lines: "1 begin 1 => begun 1.0
2 step 1 => read 5 0
3 commit 1 => unfinished
4 step 1 => wrote 5 7
5 commit 1 => committed 1.0 number 2
6 fate 1 => committed 1.0",
        sent: &[],
    };
    plays(&rt, &session)
}

// The first operation of an attempt, which writes 7 to a key.
fn work(tid: Tid, key: u16) -> ToSite {
    ToSite::Work {
        tid,
        epoch: 0,
        n: 0,
        act: PlainAct::Write(Key(key), 7),
    }
}

// A message to the site is sent, with this number.
fn gives(place: u32, message: ToSite) -> (Deed, Outcome) {
    (Deed::Send(0, Mail::To(place, 1, message)), Outcome::Sent)
}

#[test]
fn a_message_is_taken_and_answered(rt: HostRuntime) -> Result<(), Fail> {
    let did = FromSite::Did {
        tid: TID,
        epoch: 1,
        n: 0,
        reply: Reply::Done,
    };
    let session = Session {
        fails: &[],
        stops: &[],
        deeds: &[
            IDLE,
            (Deed::Send(0, Mail::To(4, 41, work(TID, 1))), Outcome::Sent),
            MADE,
            IDLE,
        ],
        lines: "42 give 1 4 => did 2.0 done sends 0",
        sent: &[(0, Mail::From(0, 42, did))],
    };
    plays(&rt, &session)
}

// Behind the one operation of an attempt its ticket is taken, and then it is prepared.
fn take(tid: Tid) -> ToSite {
    ToSite::Take {
        tid,
        epoch: 1,
        n: 1,
    }
}

fn prepare(tid: Tid) -> ToSite {
    ToSite::Prepare {
        tid,
        epoch: 1,
        n: 2,
    }
}

// An attempt of a later transaction.
const LATER: Tid = Tid {
    tx: Tx(3),
    attempt: 0,
};

// The later one is prepared first.
#[test]
fn the_least_in_doubt_is_asked_about_at_each_eighth_idle_turn(rt: HostRuntime) -> Result<(), Fail> {
    let session = Session {
        fails: &[],
        stops: &[],
        deeds: &[
            gives(0, work(LATER, 1)),
            gives(1, take(LATER)),
            gives(2, prepare(LATER)),
            gives(3, work(TID, 2)),
            gives(4, take(TID)),
            gives(5, prepare(TID)),
            MADE,
            MADE,
            MADE,
            MADE,
            MADE,
            MADE,
            IDLE,
            IDLE,
            IDLE,
            IDLE,
            IDLE,
            IDLE,
            IDLE,
            MADE,
            IDLE,
            IDLE,
            IDLE,
            IDLE,
            IDLE,
            IDLE,
            IDLE,
            MADE,
        ],
        lines: "2 give 1 0 => did 3.0 done sends 0
3 give 1 1 => did 3.0 ticket 1 sends 1
4 give 1 2 => votes 3.0 yes 1 sends 2
5 give 1 3 => did 2.0 done sends 3
6 give 1 4 => did 2.0 ticket 2 sends 4
7 give 1 5 => votes 2.0 yes 2 sends 5
8 ask 1 2.0 => asks 2.0 sends 6
9 ask 1 2.0 => asks 2.0 sends 7",
        sent: &[],
    };
    plays(&rt, &session)
}

const AT_THE_FIRST_CALL: StopLine = StopLine {
    actor: 1,
    calls: 1,
    cut: 0,
};

const FAR_OFF: StopLine = StopLine {
    actor: 1,
    calls: 1000,
    cut: 9,
};

// Down, the site starts before it takes what waits.
#[test]
fn scripted_stops_are_armed_in_their_order(rt: HostRuntime) -> Result<(), Fail> {
    let session = Session {
        fails: &[],
        stops: &[AT_THE_FIRST_CALL, FAR_OFF],
        deeds: &[
            (BEGIN, Outcome::Answered),
            (STEP, Outcome::Answered),
            (STEP, Outcome::Answered),
            (COMMIT, Outcome::Answered),
            (BEGIN, Outcome::Answered),
            gives(0, work(TID, 1)),
            MADE,
            MADE,
            (FATE, Outcome::Answered),
        ],
        lines: "1 begin 1 => begun 1.0
2 trip 1 1 0 => set
3 step 1 => read 5 0
4 step 1 => wrote 5 7
5 commit 1 => stopped kept 2
6 trip 1 1000 9 => set
7 begin 1 => down
8 back 1 => up epoch 2 doubtful 0
9 give 1 0 => did 2.0 done sends 0
10 fate 1 => aborted",
        sent: &[],
    };
    plays(&rt, &session)
}

// The set-up has made three disk calls, and the commit makes the fourth.
#[test]
fn a_failed_disk_is_answered_from_then_on(rt: HostRuntime) -> Result<(), Fail> {
    let session = Session {
        fails: &[4],
        stops: &[],
        deeds: &[
            (BEGIN, Outcome::Answered),
            (STEP, Outcome::Answered),
            (STEP, Outcome::Answered),
            (COMMIT, Outcome::Disk),
            (FATE, Outcome::Disk),
            (Deed::Turn, Outcome::Disk),
        ],
        lines: "1 begin 1 => begun 1.0
2 step 1 => read 5 0
3 step 1 => wrote 5 7",
        sent: &[],
    };
    plays(&rt, &session)
}

// The attempt of this number begins and is given up.
fn give_up(deeds: &mut Vec<(Deed, Outcome)>, lines: &mut String, attempt: u8) -> Result<(), Fail> {
    deeds.extend_from_slice(&[(BEGIN, Outcome::Answered), (ABORT, Outcome::Answered)])?;
    let place = 2 * u32::from(attempt);
    let (first, second) = (place + 1, place + 2);
    writeln!(lines, "{first} begin 1 => begun 1.{attempt}")?;
    writeln!(lines, "{second} abort 1 => aborted 1.{attempt}")?;
    Ok(())
}

// Each attempt but the last one begins and is given up, and then the last one is asked for.
fn to_the_last(alloc: Global) -> Result<(Vec<(Deed, Outcome)>, String), Fail> {
    let mut deeds = Vec::new(alloc);
    let mut lines = String::new(alloc);
    for attempt in 0..31 {
        give_up(&mut deeds, &mut lines, attempt)?;
    }
    deeds.push((BEGIN, Outcome::Spent))?;
    Ok((deeds, lines))
}

#[test]
fn the_last_attempt_is_left_for_finishing(rt: HostRuntime) -> Result<(), Fail> {
    let (deeds, lines) = to_the_last(rt.alloc())?;
    let session = Session {
        fails: &[],
        stops: &[],
        deeds: &deeds,
        lines: &lines,
        sent: &[],
    };
    plays(&rt, &session)
}
