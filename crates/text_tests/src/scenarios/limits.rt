//! Texts at a limit and one above it.
use super::{bad_line, first_bad};
use scenario_text::{BadLine, BadWhy};
use std::alloc::{AllocError, Global};
use std::fmt::Write;
use std::process::Abort;
use std::test::Fail;

/// A text in which pieces stand again and again.
#[derive(Drop)]
struct Built {
    text: String,
}

impl Built {
    fn new(alloc: Global, head: &str) -> Result<Built, AllocError> {
        let text = String::from_str(alloc, head)?;
        Ok(Built { text })
    }

    /// Adds the piece so many times.
    fn repeated(mut self, piece: &str, times: usize) -> Result<Built, AllocError> {
        for _ in 0..times {
            self.text.push_str(piece)?;
        }
        Ok(self)
    }

    /// Adds the number between the two pieces, for each number below the limit.
    fn numbered(mut self, before: &str, limit: u32, behind: &str) -> Result<Built, AllocError> {
        for number in 0..limit {
            write!(self.text, "{before}{number}{behind}")?;
        }
        Ok(self)
    }

    /// Its first bad line is this one.
    fn expect(self, rt: &(impl Abort + AllocGlobal), expected: Option<BadLine>) {
        assert_eq!(rt; first_bad(rt.alloc(), self.text.as_bytes()), Ok(expected));
    }
}

#[test]
fn lines_of_more_than_2048_bytes(rt: HostRuntime) -> Result<(), Fail> {
    let a = rt.alloc();
    Built::new(a, "")?
        .repeated("s", 2_049)?
        .repeated("\n", 1)?
        .expect(&rt, bad_line(1, BadWhy::Long));
    Built::new(a, "")?
        .repeated("s", 2_049)?
        .expect(&rt, bad_line(1, BadWhy::Long));
    Built::new(a, "")?
        .repeated("\t", 2_049)?
        .repeated("\n", 1)?
        .expect(&rt, bad_line(1, BadWhy::Long));
    Ok(())
}

#[test]
fn lines_about_as_long_as_2048_bytes(rt: HostRuntime) -> Result<(), Fail> {
    let a = rt.alloc();
    let long = bad_line(1, BadWhy::Long);
    Built::new(a, "site 1 locking ")?
        .repeated("s", 2_034)?
        .repeated("\n", 1)?
        .expect(&rt, long);
    let spelling = bad_line(1, BadWhy::Spelling);
    Built::new(a, "site 1 locking ")?
        .repeated("s", 2_033)?
        .repeated("\n", 1)?
        .expect(&rt, spelling);
    Built::new(a, "")?
        .repeated("s", 2_048)?
        .expect(&rt, bad_line(1, BadWhy::Ending));
    Built::new(a, "clients 1\n")?
        .repeated(" ", 2_049)?
        .expect(&rt, bad_line(2, BadWhy::Long));
    Ok(())
}

/// A local transaction, or a global one, at a declared site.
const LOCAL: &str = "site 1 locking abort\nlocal 1 1";

const GLOBAL: &str = "site 1 locking abort\nglobal 1";

#[test]
fn steps_above_32(rt: HostRuntime) -> Result<(), Fail> {
    let a = rt.alloc();
    Built::new(a, LOCAL)?
        .repeated(" get:1", 32)?
        .repeated("\n", 1)?
        .expect(&rt, None);
    Built::new(a, LOCAL)?
        .repeated(" get:1", 33)?
        .repeated("\n", 1)?
        .expect(&rt, bad_line(2, BadWhy::Many));
    Built::new(a, LOCAL)?
        .repeated(" get:1", 300)?
        .repeated("\n", 1)?
        .expect(&rt, bad_line(2, BadWhy::Many));
    Built::new(a, GLOBAL)?
        .repeated(" 1/set:1:1", 33)?
        .repeated("\n", 1)?
        .expect(&rt, bad_line(2, BadWhy::Many));
    Ok(())
}

#[test]
fn ties_with_steps_above_32(rt: HostRuntime) -> Result<(), Fail> {
    let a = rt.alloc();
    // A word behind the 32nd step is tested before the limit, and so is its register, and whether the transaction stands twice.
    Built::new(a, LOCAL)?
        .repeated(" get:1", 33)?
        .repeated(" get:x\n", 1)?
        .expect(&rt, bad_line(2, BadWhy::Number));
    Built::new(a, LOCAL)?
        .repeated(" set:1:1", 32)?
        .repeated(" add:1:0:1\n", 1)?
        .expect(&rt, bad_line(2, BadWhy::Register));
    let twice = "site 1 locking abort\nglobal 1 1/get:1\nlocal 1 1";
    Built::new(a, twice)?
        .repeated(" get:1", 33)?
        .repeated("\n", 1)?
        .expect(&rt, bad_line(3, BadWhy::Repeated));
    Ok(())
}

const SITES: &str = "site 1 locking abort\nsite 2 locking abort\n";

#[test]
fn stops_of_an_actor_above_64(rt: HostRuntime) -> Result<(), Fail> {
    let a = rt.alloc();
    Built::new(a, SITES)?
        .repeated("stop 1 1 0\n", 64)?
        .repeated("stop 0 1 0\n", 64)?
        .expect(&rt, None);
    Built::new(a, SITES)?
        .repeated("stop 1 1 0\n", 65)?
        .expect(&rt, bad_line(67, BadWhy::Many));
    Built::new(a, SITES)?
        .repeated("stop 2 1 0\n", 64)?
        .repeated("stop 0 1 0\n", 65)?
        .expect(&rt, bad_line(131, BadWhy::Many));
    Ok(())
}

#[test]
fn items_of_a_site_above_4096(rt: HostRuntime) -> Result<(), Fail> {
    let a = rt.alloc();
    Built::new(a, SITES)?
        .numbered("item 1 ", 4_096, " 7\n")?
        .repeated("item 2 1 7\n", 1)?
        .expect(&rt, None);
    Built::new(a, SITES)?
        .numbered("item 1 ", 4_097, " 7\n")?
        .expect(&rt, bad_line(4_099, BadWhy::Many));
    Built::new(a, SITES)?
        .numbered("item 1 ", 4_096, " 7\n")?
        .repeated("item 1 0 7\n", 1)?
        .expect(&rt, bad_line(4_099, BadWhy::Repeated));
    Ok(())
}

#[test]
fn link_lines_above_4096(rt: HostRuntime) -> Result<(), Fail> {
    let a = rt.alloc();
    Built::new(a, SITES)?
        .numbered("link to 1 ", 4_096, " drop\n")?
        .expect(&rt, None);
    let from = "link from 1 0 drop\n";
    Built::new(a, SITES)?
        .numbered("link to 1 ", 4_096, " drop\n")?
        .repeated(from, 1)?
        .expect(&rt, bad_line(4_099, BadWhy::Many));
    let to = "link to 1 0 drop\n";
    Built::new(a, SITES)?
        .numbered("link to 1 ", 4_096, " drop\n")?
        .repeated(to, 1)?
        .expect(&rt, bad_line(4_099, BadWhy::Repeated));
    Ok(())
}

#[test]
fn commands_above_65536(rt: HostRuntime) -> Result<(), Fail> {
    let a = rt.alloc();
    Built::new(a, "commands\n")?
        .repeated("begin 1\n", 65_536)?
        .expect(&rt, None);
    Built::new(a, "commands\n")?
        .repeated("begin 1\n", 65_537)?
        .repeated("x\n", 1)?
        .expect(&rt, bad_line(65_538, BadWhy::Many));
    Built::new(a, "commands\n")?
        .repeated("begin 1\n", 65_536)?
        .repeated("begin x\n", 1)?
        .expect(&rt, bad_line(65_538, BadWhy::Number));
    Ok(())
}
