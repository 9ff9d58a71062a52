//! At least five texts that are refused for each reason, among them texts with several reasons.
use super::{bad_line, first_bad};
use scenario_text::BadWhy;
use std::process::Abort;

/// Each text is refused for this reason at its line.
fn expect_bad(rt: &(impl Abort + AllocGlobal), why: BadWhy, texts: &[(&[u8], u32)]) {
    for (text, line) in texts {
        assert_eq!(rt; first_bad(rt.alloc(), text), Ok(bad_line(*line, why)));
    }
}

#[test]
fn unknown_first_words(rt: HostRuntime) {
    expect_bad(
        &rt,
        BadWhy::Word,
        &[
            (b"sites 1\n", 1),
            (b"\n", 1),
            (b" site 1 locking abort\n", 1),
            (b"Site 1 locking abort\n", 1),
            (b"begin 1\n", 1),
            (b"site 1 locking abort\ncommands\nsite 2 locking abort\n", 3),
            (b"site 1 locking abort\ncommands\ncommands\n", 3),
            (b"site 1 locking abort\ncommands:\n", 2),
            (b"sites\n", 1),
            (b"check 0\n", 1),
            (b"site 1 locking abort\ncommands\npolicy always\n", 3),
            (b"site 1 locking abort\n\nx\n", 2),
        ],
    );
}

#[test]
fn wrong_counts_of_words(rt: HostRuntime) {
    expect_bad(
        &rt,
        BadWhy::Count,
        &[
            (b"site 1 locking\n", 1),
            (b"site 1 locking abort nothing\n", 1),
            (b"site 1 locking abort \n", 1),
            (b"site 1 locking abort\nitem 1 5\n", 2),
            (b"commands x\n", 1),
            (b"site 1 locking abort\nlocal 1 1\n", 2),
            (b"site 1 locking abort\nglobal 1\n", 2),
            (b"clients\n", 1),
            (b"policy always conservative\n", 1),
            (b"site 1 locking abort\ncommands\ncheck 1 0\n", 3),
            (b"site 1 locking abort\nlink to 1 0\n", 2),
            (b"site 1 locking abort\ncommands\nbegin\n", 3),
            (b"site 1 locking abort\ncommands\ntrip 1 2\n", 3),
            (b"site 9 locking\n", 1),
            (b"site x\n", 1),
            (b"site 1 locking abort\ncommands\ngive 1 0 0\n", 3),
        ],
    );
}

#[test]
fn words_that_are_no_numbers(rt: HostRuntime) {
    expect_bad(
        &rt,
        BadWhy::Number,
        &[
            (b"site 01 locking abort\n", 1),
            (b"site  locking abort\n", 1),
            (b"site +1 locking abort\n", 1),
            (b"site 1x locking abort\n", 1),
            (b"clients -1\n", 1),
            (b"site 1 locking abort\nitem 1 00 0\n", 2),
            (b"site 1 locking abort\nlocal 1 1 get:\n", 2),
            (b"site 1 locking abort\nlocal 1 1 set::1\n", 2),
            (b"site 1 locking abort\nlocal 1 1 add:1:0x:1\n", 2),
            (b"site 1 locking abort\nglobal 1 /get:1\n", 2),
            (b"site 1 locking abort\nlink to 1 0 hold:\n", 2),
            (b"site 1 locking abort\ncommands\nagain 1.\n", 3),
            (b"site 1 locking abort\ncommands\nagain .0\n", 3),
            (b"site 1 locking abort\ncommands\nbegin 1.0\n", 3),
            (b"site x lock never\n", 1),
            (b"site 1 locking abort\nitem 1 018446744073709551616 0\n", 2),
        ],
    );
}

#[test]
fn numbers_out_of_range(rt: HostRuntime) {
    expect_bad(
        &rt,
        BadWhy::Range,
        &[
            (b"site 9 locking abort\n", 1),
            (b"site 0 locking abort\n", 1),
            (b"clients 17\n", 1),
            (b"turns 100001\n", 1),
            (b"tries 0\n", 1),
            (b"site 1 locking abort\nitem 1 65536 0\n", 2),
            (b"site 1 locking abort\nitem 1 5 18446744073709551616\n", 2),
            (b"site 1 locking abort\nlocal 1025 1 get:1\n", 2),
            (b"site 1 locking abort\nlocal 1 1 add:1:32:0\n", 2),
            (b"site 1 locking abort\nlink from 1 65536 drop\n", 2),
            (b"site 1 locking abort\nlink from 1 0 hold:65\n", 2),
            (b"site 1 locking abort\nstop 1 0 0\n", 2),
            (b"site 1 locking abort\nstop 1 1001 0\n", 2),
            (b"site 1 locking abort\nstop 1 1 65536\n", 2),
            (b"site 1 locking abort\ncommands\nbegin 0\n", 3),
            (b"site 1 locking abort\ncommands\nagain 1.32\n", 3),
            (b"site 1 locking abort\ncommands\ngive 1 4294967296\n", 3),
            (b"site 1 locking abort\ncommands\ntrip 1 1001 0\n", 3),
            (b"site 1 locking abort\ncommands\nhalt 9 0\n", 3),
            (b"site 1 locking abort\ncommands\ncheck 9\n", 3),
            (b"site 1 locking abort\nlocal 1 9 put:1\n", 2),
            (b"site 99999999999999999999999 lock abort\n", 1),
        ],
    );
}

#[test]
fn words_without_their_form(rt: HostRuntime) {
    expect_bad(
        &rt,
        BadWhy::Spelling,
        &[
            (b"site 1 lock abort\n", 1),
            (b"policy any\n", 1),
            (b"site 1 locking Abort\n", 1),
            (b"site 1 locking abort\nlocal 1 1 put:1\n", 2),
            (b"site 1 locking abort\nlocal 1 1 get\n", 2),
            (b"site 1 locking abort\nlocal 1 1 get:1:2\n", 2),
            (b"site 1 locking abort\nglobal 1 get:1\n", 2),
            (b"site 1 locking abort\nglobal 1 9/foo:5\n", 2),
            (b"site 1 locking abort\nlink by 1 0 drop\n", 2),
            (b"site 1 locking abort\nlink by 9 0 drop\n", 2),
            (b"site 1 locking abort\nlink to 1 0 hold\n", 2),
            (b"site 1 locking abort\nlink to 1 0 hold:1:2\n", 2),
            (b"site 1 locking abort\ncommands\nagain 1\n", 3),
            (b"site 1 locking abort\ncommands\nlate 1.2.3\n", 3),
            (b"site 1  abort\n", 1),
            (b"site 1 locking abort\nlocal 1 1 get:1 \n", 2),
        ],
    );
}

#[test]
fn undeclared_sites_and_actors(rt: HostRuntime) {
    expect_bad(
        &rt,
        BadWhy::Site,
        &[
            (b"item 1 5 0\n", 1),
            (b"site 1 locking abort\nitem 2 x 0\n", 2),
            (b"site 1 locking abort\nlocal 1 2 get:1\n", 2),
            (b"site 1 locking abort\nglobal 1 7/get:x\n", 2),
            (b"site 1 locking abort\nlink to 2 0 drop\n", 2),
            (b"site 1 locking abort\nstop 2 1 0\n", 2),
            (b"site 1 locking abort\ncommands\ngive 2 0\n", 3),
            (b"site 1 locking abort\ncommands\nask 2 x\n", 3),
            (b"site 1 locking abort\ncommands\nhalt 2 0\n", 3),
            (b"site 1 locking abort\ncommands\nback 8\n", 3),
            (b"site 1 locking abort\ncommands\ncheck 2\n", 3),
        ],
    );
}

#[test]
fn lines_that_stand_twice(rt: HostRuntime) {
    expect_bad(
        &rt,
        BadWhy::Repeated,
        &[
            (b"site 1 locking abort\nsite 1 locking abort\n", 2),
            (b"site 1 locking abort\nitem 1 5 0\nitem 1 5 1\n", 3),
            (
                b"site 1 locking abort\nlocal 1 1 get:1\nlocal 1 1 get:1\n",
                3,
            ),
            (
                b"site 1 locking abort\nlocal 1 1 get:1\nglobal 1 1/get:1\n",
                3,
            ),
            (
                b"site 1 locking abort\nlink to 1 3 drop\nlink to 1 3 twice\n",
                3,
            ),
            (b"clients 4\nclients 4\n", 2),
            (b"turns 1\ntries 1\nturns 2\n", 3),
            (b"tries 2\ntries 2\n", 2),
            (b"policy conservative\npolicy always\n", 2),
            (
                b"site 1 locking abort\nlocal 1 1 get:1\nlocal 1 1 add:1:0:1\n",
                3,
            ),
        ],
    );
}

#[test]
fn registers_before_their_reads(rt: HostRuntime) {
    expect_bad(
        &rt,
        BadWhy::Register,
        &[
            (b"site 1 locking abort\nlocal 1 1 add:5:0:1\n", 2),
            (b"site 1 locking abort\nlocal 1 1 get:1 add:5:1:1\n", 2),
            (b"site 1 locking abort\nglobal 1 1/add:5:0:1\n", 2),
            (
                b"site 1 locking abort\nlocal 1 1 set:1:1 add:5:0:1 get:1\n",
                2,
            ),
            (
                b"site 1 locking abort\nlocal 1 1 get:1 get:2 add:5:2:1\n",
                2,
            ),
        ],
    );
}

#[test]
fn bytes_that_are_not_visible(rt: HostRuntime) {
    expect_bad(
        &rt,
        BadWhy::Bytes,
        &[
            (b"site 1 locking\x09abort\n", 1),
            (b"site 1 locking abort\x0d\n", 1),
            (b"\x07\n", 1),
            (b"\x7f\n", 1),
            (b"site \xff locking abort\n", 1),
            (b"site 1 locking abort\n\x00\n", 2),
            (b"site 1 locking abort\ncommands\nbegin\x1f1\n", 3),
        ],
    );
}

#[test]
fn last_lines_without_a_line_feed(rt: HostRuntime) {
    expect_bad(
        &rt,
        BadWhy::Ending,
        &[
            (b"site 1 locking abort", 1),
            (b"site 1 locking abort\nx", 2),
            (b"site 1 locking abort\n\x07", 2),
            (b"site 1 locking abort\ncommands\nbegin 1", 3),
            (b"site 1 locking abort\n ", 2),
        ],
    );
}
