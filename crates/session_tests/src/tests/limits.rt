//! The greatest sessions that are promised: each limit is met once, and those of a text are passed once.
use super::{expect, replayed};
use std::alloc::Global;
use std::process::Abort;
use std::sync::Wait;
use std::test::Fail;
use std::thread::Threads;

// A global at eight sites, of each rule and each protocol. Those that presume commit ask at the end.
pub(super) const EIGHT_SITES: (&str, &str) = (
    "site 1 locking nothing
site 2 timestamp abort
site 3 validation commit
site 4 multiversion nothing
site 5 locking abort
site 6 timestamp commit
site 7 validation nothing
site 8 multiversion abort
global 1 1/set:1:11 2/set:2:22 3/set:3:33 4/set:4:44 5/set:5:55 6/set:6:66 7/set:7:77 8/set:8:88
commands
go 1
give 1 0
take 1 0
give 1 1
take 1 1
give 1 2
take 1 2
give 2 0
take 2 0
give 2 1
take 2 1
give 2 2
take 2 2
give 3 0
take 3 0
give 3 1
take 3 1
give 3 2
take 3 2
give 4 0
take 4 0
give 4 1
take 4 1
give 4 2
take 4 2
give 5 0
take 5 0
give 5 1
take 5 1
give 5 2
take 5 2
give 6 0
take 6 0
give 6 1
take 6 1
give 6 2
take 6 2
give 7 0
take 7 0
give 7 1
take 7 1
give 7 2
take 7 2
give 8 0
take 8 0
give 8 1
take 8 1
give 8 2
take 8 2
",
    "go 1 => begun 1.0 sends 1/0
give 1 0 => did 1.0 done sends 0
take 1 0 => sends 1/1 2/0
give 1 1 => did 1.0 ticket 1 sends 1
take 1 1 => initiates sends 1/2
give 1 2 => votes 1.0 yes 1 sends 2
take 1 2 => voted
give 2 0 => did 1.0 done sends 0
take 2 0 => sends 2/1 3/0
give 2 1 => did 1.0 ticket 1 sends 1
take 2 1 => sends 2/2
give 2 2 => votes 1.0 yes 1 sends 2
take 2 2 => voted
give 3 0 => did 1.0 done sends 0
take 3 0 => sends 3/1 4/0
give 3 1 => did 1.0 ticket 1 sends 1
take 3 1 => sends 3/2
give 3 2 => votes 1.0 yes 1 sends 2
take 3 2 => voted
give 4 0 => did 1.0 done sends 0
take 4 0 => sends 4/1 5/0
give 4 1 => did 1.0 ticket 1 sends 1
take 4 1 => sends 4/2
give 4 2 => votes 1.0 yes 1 sends 2
take 4 2 => voted
give 5 0 => did 1.0 done sends 0
take 5 0 => sends 5/1 6/0
give 5 1 => did 1.0 ticket 1 sends 1
take 5 1 => sends 5/2
give 5 2 => votes 1.0 yes 1 sends 2
take 5 2 => voted
give 6 0 => did 1.0 done sends 0
take 6 0 => sends 6/1 7/0
give 6 1 => did 1.0 ticket 1 sends 1
take 6 1 => sends 6/2
give 6 2 => votes 1.0 yes 1 sends 2
take 6 2 => voted
give 7 0 => did 1.0 done sends 0
take 7 0 => sends 7/1 8/0
give 7 1 => did 1.0 ticket 1 sends 1
take 7 1 => sends 7/2
give 7 2 => votes 1.0 yes 1 sends 2
take 7 2 => voted
give 8 0 => did 1.0 done sends 0
take 8 0 => sends 8/1
give 8 1 => did 1.0 ticket 1 sends 1
take 8 1 => sends 8/2
give 8 2 => votes 1.0 yes 1 sends 2
take 8 2 => decides commit sends 1/3 2/3 3/3 4/3 5/3 6/3 7/3 8/3
again 1.0 => sends 1/4 2/4 4/4 5/4 7/4 8/4
give 1 4 => settles 1.0 commit sends 3
take 1 3 => acked
give 2 4 => settles 1.0 commit sends 3
take 2 3 => acked
give 4 4 => settles 1.0 commit sends 3
take 4 3 => acked
give 5 4 => settles 1.0 commit sends 3
take 5 3 => acked
give 7 4 => settles 1.0 commit sends 3
take 7 3 => acked
give 8 4 => settles 1.0 commit sends 3
take 8 3 => forgets
ask 3 1.0 => asks 1.0 sends 3
take 3 3 => presumes commit sends 3/4
give 3 4 => settles 1.0 commit
ask 6 1.0 => asks 1.0 sends 3
take 6 3 => presumes commit sends 6/4
give 6 4 => settles 1.0 commit
order 1.0
reads 1.0
outcome 1.0 commit
forgotten 1.0
table 1 1=11
table 2 2=22
table 3 3=33
table 4 4=44
table 5 5=55
table 6 6=66
table 7 7=77
table 8 8=88
end
",
);

#[test]
fn a_global_commits_at_eight_sites(rt: HostRuntime) {
    let (input, output) = EIGHT_SITES;
    expect(&rt, input, 0, output);
}

/// An input, and the output that is wanted of it.
#[derive(Drop)]
pub(super) struct Wanted {
    pub alloc: Global,
    pub input: String,
    pub output: String,
}

impl Wanted {
    /// This input, and no output so far.
    fn new(alloc: Global, input: &str) -> Result<Wanted, Fail> {
        Ok(Wanted {
            alloc,
            input: String::from_str(alloc, input)?,
            output: String::new(alloc),
        })
    }

    /// A command, and the answer that is wanted of it.
    pub fn line(&mut self, command: &str, answer: &str) -> Result<(), Fail> {
        self.input
            .push_str(&format!(in self.alloc; "{command}\n")?)?;
        self.output
            .push_str(&format!(in self.alloc; "{command} => {answer}\n")?)?;
        Ok(())
    }

    /// `replay` on the input has this status, and puts the output.
    pub fn is_met(
        &self,
        rt: &(impl Abort + Threads + Wait + Sync + AllocGlobal),
        status: u8,
    ) -> Result<(), Fail> {
        let (ended, put) = replayed(rt, self.input.as_bytes())?;
        assert_eq!(rt; ended, status);
        assert_eq!(rt; put.as_slice(), self.output.as_bytes());
        Ok(())
    }
}

#[test]
fn a_transaction_of_32_steps_commits(rt: HostRuntime) -> Result<(), Fail> {
    let alloc = rt.alloc();
    let mut wanted = Wanted::new(alloc, "site 1 locking nothing\nitem 1 30 5\nlocal 1 1")?;
    for key in 0..31_u8 {
        wanted.input.push_str(&format!(in alloc; " get:{key}")?)?;
    }
    wanted.input.push_str(" add:40:30:2\ncommands\n")?;
    wanted.line("begin 1", "begun 1.0")?;
    for key in 0..30_u8 {
        wanted.line("step 1", &format!(in alloc; "read {key} 0")?)?;
    }
    wanted.line("step 1", "read 30 5")?;
    wanted.line("step 1", "wrote 40 7")?;
    wanted.line("step 1", "end")?;
    wanted.line("commit 1", "committed 1.0 number 2")?;
    wanted.output.push_str("order 1.0\nreads 1.0")?;
    for _ in 0..30_u8 {
        wanted.output.push_str(" 0")?;
    }
    wanted
        .output
        .push_str(" 5\nforgotten\ntable 1 30=5 40=7\nend\n")?;
    wanted.is_met(&rt, 0)
}

#[test]
fn a_local_is_begun_32_times(rt: HostRuntime) -> Result<(), Fail> {
    let alloc = rt.alloc();
    let mut wanted = Wanted::new(
        alloc,
        "site 8 timestamp nothing
item 8 65535 18446744073709551615
local 1024 8 get:65535 add:65535:0:1
commands
",
    )?;
    for attempt in 0..32_u8 {
        wanted.line("begin 1024", &format!(in alloc; "begun 1024.{attempt}")?)?;
        wanted.line("abort 1024", &format!(in alloc; "aborted 1024.{attempt}")?)?;
    }
    wanted.line("begin 1024", "spent")?;
    wanted.output.push_str("order\nforgotten\ntable 8 65535=18446744073709551615\nend\n")?;
    wanted.is_met(&rt, 0)
}

#[test]
fn a_global_is_begun_32_times(rt: HostRuntime) -> Result<(), Fail> {
    let alloc = rt.alloc();
    let mut wanted = Wanted::new(
        alloc,
        "site 1 locking nothing\nglobal 1 1/set:1:1\ncommands\n",
    )?;
    let mut outcomes = String::new(alloc);
    let mut forgotten = String::from_str(alloc, "forgotten")?;
    for attempt in 0..32_u8 {
        let place = 2 * attempt;
        let next = place + 1;
        wanted.line(
            "go 1",
            &format!(in alloc; "begun 1.{attempt} sends 1/{place}")?,
        )?;
        wanted.line(
            &format!(in alloc; "late 1.{attempt}")?,
            &format!(in alloc; "decides abort late forgets sends 1/{next}")?,
        )?;
        outcomes.push_str(&format!(in alloc; "outcome 1.{attempt} abort\n")?)?;
        forgotten.push_str(&format!(in alloc; " 1.{attempt}")?)?;
    }
    wanted.line("go 1", "spent")?;
    wanted.output.push_str(&format!(in alloc; "order\n{outcomes}{forgotten}\ntable 1\nend\n")?)?;
    wanted.is_met(&rt, 0)
}

/// A site with so many items.
pub(super) fn of_items(alloc: Global, count: u16) -> Result<Wanted, Fail> {
    let mut wanted = Wanted::new(alloc, "site 1 locking nothing\n")?;
    for key in 0..count {
        wanted
            .input
            .push_str(&format!(in alloc; "item 1 {key} {key}\n")?)?;
    }
    Ok(wanted)
}

#[test]
fn a_site_has_4096_items(rt: HostRuntime) -> Result<(), Fail> {
    let alloc = rt.alloc();
    let mut wanted = of_items(alloc, 4_096)?;
    wanted.output.push_str("order\nforgotten\ntable 1")?;
    for key in 0..4_096_u16 {
        wanted.output.push_str(&format!(in alloc; " {key}={key}")?)?;
    }
    wanted.output.push_str("\nend\n")?;
    wanted.is_met(&rt, 0)?;
    let mut wanted = of_items(alloc, 4_097)?;
    wanted.output.push_str("bad line 4098 many\n")?;
    wanted.is_met(&rt, 2)
}

/// So many stop lines of each of two actors.
fn of_stops(alloc: Global, count: u16) -> Result<Wanted, Fail> {
    let mut wanted = Wanted::new(alloc, "site 1 locking nothing\n")?;
    for actor in 0..2_u8 {
        for calls in 1..=count {
            wanted
                .input
                .push_str(&format!(in alloc; "stop {actor} {calls} 0\n")?)?;
        }
    }
    Ok(wanted)
}

#[test]
fn an_actor_has_64_stops(rt: HostRuntime) -> Result<(), Fail> {
    let alloc = rt.alloc();
    let mut wanted = of_stops(alloc, 64)?;
    wanted.output.push_str("order\nforgotten\ntable 1\nend\n")?;
    wanted.is_met(&rt, 0)?;
    let mut wanted = of_stops(alloc, 65)?;
    wanted.output.push_str("bad line 66 many\n")?;
    wanted.is_met(&rt, 2)
}
