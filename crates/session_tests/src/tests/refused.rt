//! Words and inputs that are refused.
use super::{USAGE, called, empty_disks, expect};
use mdb_top::NoGate;
use std::test::Fail;

#[test]
fn an_unknown_word_is_named(rt: HostRuntime) {
    expect(&rt, "sites 1\n", 2, "bad line 1 word\n");
}

#[test]
fn a_number_out_of_range_is_named(rt: HostRuntime) {
    expect(&rt, "site 9 locking abort\n", 2, "bad line 1 range\n");
}

#[test]
fn a_site_that_stands_twice_is_named(rt: HostRuntime) {
    expect(
        &rt,
        "site 1 locking abort\nsite 1 locking abort\n",
        2,
        "bad line 2 repeated\n",
    );
}

#[test]
fn a_policy_that_is_not_known_is_named(rt: HostRuntime) {
    expect(&rt, "policy any\n", 2, "bad line 1 spelling\n");
}

#[test]
fn a_register_that_is_not_read_is_named(rt: HostRuntime) {
    expect(
        &rt,
        "site 1 locking abort\nlocal 1 1 add:5:0:1\n",
        2,
        "bad line 2 register\n",
    );
}

#[test]
fn a_step_too_many_is_named(rt: HostRuntime) {
    expect(
        &rt,
        "site 1 locking abort\nlocal 1 1 get:1 get:1 get:1 get:1 get:1 get:1 get:1 get:1 get:1 get:1 get:1 get:1 get:1 get:1 get:1 get:1 get:1 get:1 get:1 get:1 get:1 get:1 get:1 get:1 get:1 get:1 get:1 get:1 get:1 get:1 get:1 get:1 get:1\n",
        2,
        "bad line 2 many\n",
    );
}

#[test]
fn a_step_at_a_site_that_is_not_declared_is_named(rt: HostRuntime) {
    expect(
        &rt,
        "site 1 locking abort\nglobal 1 1/get:1 2/get:1\n",
        2,
        "bad line 2 site\n",
    );
}

#[test]
fn a_command_to_an_actor_that_is_not_declared_is_named(rt: HostRuntime) {
    expect(
        &rt,
        "site 1 locking abort\ncommands\nhalt 0 0\nhalt 2 0\n",
        2,
        "bad line 4 site\n",
    );
}

#[test]
fn the_first_bad_line_is_named(rt: HostRuntime) {
    expect(
        &rt,
        "site 1 locking abort\ncommands\nbegin 1025\nbegins 1\n",
        2,
        "bad line 3 range\n",
    );
}

/// What is none of the calls: words with one space between each two.
const UNKNOWN: [&str; 18] = [
    "replay x",
    "run x",
    "audit x",
    "-h run",
    "ran ",
    "make",
    "make 5 3",
    "make 5 3 100 1",
    "Make 5 3 100",
    "make -1 3 100",
    "make 05 3 100",
    "make 18446744073709551616 3 100",
    "make 5 0 100",
    "make 5 9 100",
    "make 5 3 0",
    "make 5 3 1025",
    "make 5 3 ",
    "run 5 3 100",
];

#[test]
fn other_words_are_told_the_usage(rt: HostRuntime) -> Result<(), Fail> {
    for text in UNKNOWN.iter() {
        let mut words = Vec::new(rt.alloc());
        for word in text.split(' ') {
            words.push(word)?;
        }
        let mut disks = empty_disks(rt.alloc())?;
        let (status, put) = called(&rt, &words, b"", (0, 0), &mut disks, &NoGate)?;
        assert_eq!(rt; status, 1, "{text}");
        assert_eq!(rt; put.as_slice(), USAGE, "{text}");
    }
    Ok(())
}
