//! Sessions of the coordinator's host.
ghost use Rattle.std.specs.Prelude.{◌≡◌, ◌∷◌, ◌++◌, [], IfOk};
ghost use Rattle.mdb_base.specs.Words.{Each};
ghost use Rattle.journal_disk.specs.MemDisk.{mem_faults, mem_size};
ghost use Rattle.global_manager.specs.Stands.{IsDeclared};
ghost use Rattle.fed_hosts.specs.Keeps.{IsStop};
ghost use Rattle.world_tests.specs.HostSessions.{AreNew, coord_plan_of, two_sites, wires_of};

use super::deeds::{
    Deed, FIRST, GLOBAL, LOCAL, Mail, Outcome, SECOND, Session, TID, asked, turned,
};
use super::lines::are_left;
use super::playing::{Host, played};
use super::rings::{Link, new_rings};
use fed_hosts::{CoordHost, HostEnds, NoGate, Plan, Port};
use fed_rules::{Command, FromSite, StopLine, ToSite, TxLine};
use global_exec::Always;
use global_manager::GlobalManager;
use journal_disk::MemDisk;
use mdb_base::{Act, Key, Memory, PlainAct, Program, Reply, Step, Tid};
use presumptions::{Decision, Participant, Participants, Protocol};
use scripted_link::Ends;
use std::alloc::Global;
use std::marker::Brand;
use std::process::Abort;
use std::test::Fail;

impl<N: Plan> Host for CoordHost<Always, MemDisk, N> {
    fn ask(&mut self, command: Command) -> Outcome {
        match command {
            Command::Go(tx) => asked(self.go(tx, &NoGate)),
            Command::Fate(tx) => asked(self.fate(tx, &NoGate)),
            Command::Again(tid) => asked(self.again(tid, &NoGate)),
            Command::Late(tid) => asked(self.late(tid, &NoGate)),
            _ => Outcome::Nothing,
        }
    }

    fn turn(&mut self) -> Outcome {
        turned(self.turn(&NoGate))
    }

    fn leaves<R: Abort + AllocGlobal>(self, rt: &R, text: &str) -> Result<(), Fail> {
        let parts = self.finish();
        are_left(rt, parts.lines.as_slice(), text)
    }
}

// The coordinator's sites.
fn sites_of(alloc: Global) -> Result<Participants, Memory>
    ensures { IfOk result (λ sites. sites ≡ two_sites) }
{
    let first = Participant {
        site: FIRST,
        protocol: Protocol::Commit,
    };
    let second = Participant {
        site: SECOND,
        protocol: Protocol::Abort,
    };
    Ok(Participants::of(vec![in alloc; first, second]?))
}

// The host of a new coordinator has a session, with these transactions, on this empty disk, with these new rings of its sites.
fn host_plays<N: Plan>(
    rt: &(impl Abort + AllocGlobal),
    disk: MemDisk,
    transactions: &[TxLine],
    stops: Vec<StopLine>,
    first: (Ends, Ends),
    second: (Ends, Ends),
    session: &Session,
) -> Result<(), Fail>
    requires empty { mem_size disk ≡ 0 }
    requires declared { Each (IsDeclared two_sites) transactions.now }
    requires stops { Each (IsStop 0) stops.items }
    requires first { AreNew first }
    requires second { AreNew second }
    requires plan { N.coordinator ≡ coord_plan_of transactions.now stops.items (mem_faults disk) }
    requires wires { N.rings ≡ wires_of first ++ wires_of second }
{
    let alloc = rt.alloc();
    let sites = sites_of(alloc)?;
    let manager = GlobalManager::new(alloc, sites, Always, transactions)?;
    let (to, from) = first;
    let (to_second, from_second) = second;
    let mut links = [
        Link {
            outlet: from.outlet,
            inlet: to.inlet,
        },
        Link {
            outlet: from_second.outlet,
            inlet: to_second.inlet,
        },
    ];
    let first = Port {
        ends: HostEnds {
            site: FIRST,
            inlet: from.inlet,
            outlet: to.outlet,
        },
        to: Vec::new(alloc),
    };
    let second = Port {
        ends: HostEnds {
            site: SECOND,
            inlet: from_second.inlet,
            outlet: to_second.outlet,
        },
        to: Vec::new(alloc),
    };
    let ports = vec![in alloc; first, second]?;
    let host = CoordHost::<Always, MemDisk, N>::new(alloc, manager, disk, stops, ports);
    played(rt, host, &mut links, session)
}

// The global transaction, which sets key 5 to 7 at the first site and then at the second.
fn transaction(alloc: Global) -> Result<TxLine, Fail>
    ensures { IfOk result (λ line. IsDeclared two_sites line) }
{
    let steps = [
        Step {
            site: FIRST,
            act: Act::Set(Key(5), 7),
        },
        Step {
            site: SECOND,
            act: Act::Set(Key(5), 7),
        },
    ];
    let program = Program::new(alloc, &steps)?;
    Ok(TxLine {
        tx: GLOBAL,
        home: None,
        program,
    })
}

// The host of a new coordinator, with the global transaction, has a session.
fn plays(rt: &(impl Abort + AllocGlobal), session: &Session) -> Result<(), Fail>
    requires { Each (IsStop 0) session.now.stops.now }
{
    let alloc = rt.alloc();
    let transactions = [transaction(alloc)?];
    let mut stops = Vec::new(alloc);
    stops.extend_from_slice(session.stops)?;
    let disk = MemDisk::failing(alloc, session.fails)?;
    let first = new_rings(alloc)?;
    let second = new_rings(alloc)?;
    host_plays::<Brand>(rt, disk, &transactions, stops, first, second, session)
}

const GO: Deed = Deed::Ask(Command::Go(GLOBAL));

const FATE: Deed = Deed::Ask(Command::Fate(GLOBAL));

const MADE: (Deed, Outcome) = (Deed::Turn, Outcome::Made);

const IDLE: (Deed, Outcome) = (Deed::Turn, Outcome::Idle);

// The first step, to the first site.
const FIRST_STEP: ToSite = ToSite::Work {
    tid: TID,
    epoch: 0,
    n: 0,
    act: PlainAct::Write(Key(5), 7),
};

const ABORT: ToSite = ToSite::Decide {
    tid: TID,
    decision: Decision::Abort,
};

#[test]
fn calls_about_a_global_transaction_make_lines(rt: HostRuntime) -> Result<(), Fail> {
    let session = Session {
        fails: &[],
        stops: &[],
        deeds: &[
            (GO, Outcome::Answered),
            (FATE, Outcome::Answered),
            (Deed::Ask(Command::Go(LOCAL)), Outcome::Unknown),
            (Deed::Ask(Command::Fate(LOCAL)), Outcome::Unknown),
            (Deed::Ask(Command::Again(TID)), Outcome::Answered),
            (Deed::Ask(Command::Late(TID)), Outcome::Answered),
        ],
        lines: "1 go 2 => begun 2.0 sends 1/0
2 fate 2 => running 2.0
3 again 2.0 => sends 1/1
4 late 2.0 => decides abort late forgets sends 1/2 2/0",
        sent: &[
            (0, Mail::To(0, 1, FIRST_STEP)),
            (0, Mail::To(1, 3, FIRST_STEP)),
            (0, Mail::To(2, 4, ABORT)),
            (1, Mail::To(0, 4, ABORT)),
        ],
    };
    plays(&rt, &session)
}

// The first site has done the first step, in its first epoch.
const DONE: FromSite = FromSite::Did {
    tid: TID,
    epoch: 1,
    n: 0,
    reply: Reply::Done,
};

#[test]
fn a_reply_is_taken_and_the_next_step_sent(rt: HostRuntime) -> Result<(), Fail> {
    let take = ToSite::Take {
        tid: TID,
        epoch: 1,
        n: 1,
    };
    let session = Session {
        fails: &[],
        stops: &[],
        deeds: &[
            (GO, Outcome::Answered),
            IDLE,
            (Deed::Send(0, Mail::From(3, 41, DONE)), Outcome::Sent),
            MADE,
            IDLE,
        ],
        lines: "1 go 2 => begun 2.0 sends 1/0
42 take 1 3 => sends 1/1 2/0",
        sent: &[
            (0, Mail::To(0, 1, FIRST_STEP)),
            (0, Mail::To(1, 42, take)),
            (1, Mail::To(0, 42, FIRST_STEP)),
        ],
    };
    plays(&rt, &session)
}

// A message of this place, of a site that asks about an attempt that never began.
fn asks(place: u32) -> Mail {
    let tid = Tid {
        tx: GLOBAL,
        attempt: 9,
    };
    Mail::From(place, 1, FromSite::Inquiry { tid })
}

// A packet of the first site is taken, and then two of each wait.
#[test]
fn the_coordinator_goes_round_its_sites(rt: HostRuntime) -> Result<(), Fail> {
    let session = Session {
        fails: &[],
        stops: &[],
        deeds: &[
            (Deed::Send(0, asks(0)), Outcome::Sent),
            MADE,
            (Deed::Send(0, asks(1)), Outcome::Sent),
            (Deed::Send(0, asks(2)), Outcome::Sent),
            (Deed::Send(1, asks(0)), Outcome::Sent),
            (Deed::Send(1, asks(1)), Outcome::Sent),
            MADE,
            MADE,
            MADE,
            MADE,
            IDLE,
        ],
        lines: "2 take 1 0 => presumes commit sends 1/0
3 take 2 0 => presumes abort sends 2/0
4 take 1 1 => presumes commit sends 1/1
5 take 2 1 => presumes abort sends 2/1
6 take 1 2 => presumes commit sends 1/2",
        sent: &[],
    };
    plays(&rt, &session)
}

// The first site has given a ticket.
const TICKET: FromSite = FromSite::Did {
    tid: TID,
    epoch: 1,
    n: 1,
    reply: Reply::Ticket(1),
};

const AT_THE_FIRST_CALL: StopLine = StopLine {
    actor: 0,
    calls: 1,
    cut: 0,
};

// Behind the first ticket an Initiation is to be forced. Down, the coordinator starts before it takes what waits.
#[test]
fn a_scripted_stop_stops_the_coordinator(rt: HostRuntime) -> Result<(), Fail> {
    let session = Session {
        fails: &[],
        stops: &[AT_THE_FIRST_CALL],
        deeds: &[
            (GO, Outcome::Answered),
            (Deed::Send(0, Mail::From(0, 1, DONE)), Outcome::Sent),
            (Deed::Send(0, Mail::From(1, 2, TICKET)), Outcome::Sent),
            (Deed::Send(0, asks(2)), Outcome::Sent),
            MADE,
            MADE,
            (FATE, Outcome::Answered),
            MADE,
            MADE,
            IDLE,
        ],
        lines: "1 go 2 => begun 2.0 sends 1/0
2 trip 0 1 0 => set
3 take 1 0 => sends 1/1 2/0
4 take 1 1 => stopped kept 0
5 fate 2 => down
6 back 0 => up known 0
7 take 1 2 => presumes commit sends 1/2",
        sent: &[],
    };
    plays(&rt, &session)
}

#[test]
fn a_failed_disk_is_answered_from_then_on(rt: HostRuntime) -> Result<(), Fail> {
    let session = Session {
        fails: &[1],
        stops: &[],
        deeds: &[
            (GO, Outcome::Answered),
            (Deed::Send(0, Mail::From(0, 1, DONE)), Outcome::Sent),
            (Deed::Send(0, Mail::From(1, 2, TICKET)), Outcome::Sent),
            MADE,
            (Deed::Turn, Outcome::Disk),
            (FATE, Outcome::Disk),
            (Deed::Turn, Outcome::Disk),
        ],
        lines: "1 go 2 => begun 2.0 sends 1/0
2 take 1 0 => sends 1/1 2/0",
        sent: &[],
    };
    plays(&rt, &session)
}
