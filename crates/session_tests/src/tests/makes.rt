//! Made scenarios: whatever the interleaving, each transaction commits and the total stays.
use super::{called, empty_disks};
use mdb_top::NoGate;
use std::process::Abort;
use std::sync::Wait;
use std::test::Fail;
use std::thread::Threads;

// The words behind `make`, and the summary that they imply.
const MADE: [([&str; 3], &str); 12] = [
    (
        ["5", "3", "100"],
        "sites 3 globals 50 locals 50 committed 100 total 3000\n",
    ),
    (
        ["7", "1", "3"],
        "sites 1 globals 0 locals 3 committed 3 total 1000\n",
    ),
    (
        ["0", "1", "1"],
        "sites 1 globals 0 locals 1 committed 1 total 1000\n",
    ),
    (
        ["2", "1", "20"],
        "sites 1 globals 0 locals 20 committed 20 total 1000\n",
    ),
    (
        ["3", "2", "1"],
        "sites 2 globals 0 locals 1 committed 1 total 2000\n",
    ),
    (
        ["4", "2", "20"],
        "sites 2 globals 10 locals 10 committed 20 total 2000\n",
    ),
    (
        ["6", "3", "21"],
        "sites 3 globals 10 locals 11 committed 21 total 3000\n",
    ),
    (
        ["8", "4", "40"],
        "sites 4 globals 20 locals 20 committed 40 total 4000\n",
    ),
    (
        ["9", "5", "33"],
        "sites 5 globals 16 locals 17 committed 33 total 5000\n",
    ),
    (
        ["10", "6", "50"],
        "sites 6 globals 25 locals 25 committed 50 total 6000\n",
    ),
    (
        ["11", "7", "64"],
        "sites 7 globals 32 locals 32 committed 64 total 7000\n",
    ),
    (
        ["18446744073709551615", "8", "64"],
        "sites 8 globals 32 locals 32 committed 64 total 8000\n",
    ),
];

/// `make` with these words puts that line.
fn expect_made(
    rt: &(impl Abort + Threads + Wait + Sync + AllocGlobal),
    words: &[&str; 3],
    line: &str,
) -> Result<(), Fail> {
    let [number, sites, transactions] = *words;
    let mut disks = empty_disks(rt.alloc())?;
    let words = ["make", number, sites, transactions];
    let (status, put) = called(rt, &words, b"", (0, 0), &mut disks, &NoGate)?;
    assert_eq!(rt; status, 0);
    assert_eq!(rt; put.as_slice(), line.as_bytes());
    Ok(())
}

#[test]
fn a_made_scenario_ends_with_its_summary(rt: HostRuntime) -> Result<(), Fail> {
    for (words, line) in MADE.iter() {
        expect_made(&rt, words, line)?;
    }
    Ok(())
}

#[test]
fn the_greatest_made_scenario_prints_the_same_each_time(rt: HostRuntime) -> Result<(), Fail> {
    for _ in 0..2 {
        expect_made(
            &rt,
            &["1", "8", "1024"],
            "sites 8 globals 512 locals 512 committed 1024 total 8000\n",
        )?;
    }
    Ok(())
}
