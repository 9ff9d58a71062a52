//! Whole sessions of several sites, with the lines that are known of them.
use super::replays;
use std::test::Fail;

#[test]
fn a_transfer_between_two_sites_commits(rt: HostRuntime) -> Result<(), Fail> {
    replays(
        &rt,
        rt.alloc(),
        "site 1 locking abort
site 2 validation commit
item 1 10 500
item 2 20 40
global 1 1/get:10 1/add:10:0:18446744073709551516 2/get:20 2/add:20:1:100
local 2 1 get:10
local 3 2 get:20
",
        "go 1 => begun 1.0 sends 1/0
give 1 0 => did 1.0 value 500 sends 0
take 1 0 => sends 1/1
give 1 1 => did 1.0 done sends 1
take 1 1 => sends 1/2 2/0
give 1 2 => did 1.0 ticket 1 sends 2
take 1 2 => initiates sends 1/3
give 1 3 => votes 1.0 yes 1 sends 3
take 1 3 => voted
give 2 0 => did 1.0 value 40 sends 0
take 2 0 => sends 2/1
give 2 1 => did 1.0 done sends 1
take 2 1 => sends 2/2
give 2 2 => did 1.0 ticket 1 sends 2
take 2 2 => sends 2/3
give 2 3 => votes 1.0 yes 1 sends 3
take 2 3 => decides commit sends 1/4 2/4
give 1 4 => settles 1.0 commit sends 4
take 1 4 => forgets
give 2 4 => settles 1.0 commit
begin 2 => begun 2.0
step 2 => read 10 400
commit 2 => committed 2.0 number 4
begin 3 => begun 3.0
step 3 => read 20 140
commit 3 => committed 3.0 number 4",
    )
}

#[test]
fn three_protocols_commit_and_a_stopped_site_asks(rt: HostRuntime) -> Result<(), Fail> {
    replays(
        &rt,
        rt.alloc(),
        "site 1 locking nothing
site 2 timestamp abort
site 3 validation commit
global 1 1/set:1:11 2/set:2:22 3/set:3:33
",
        "go 1 => begun 1.0 sends 1/0
give 1 0 => did 1.0 done sends 0
take 1 0 => sends 1/1 2/0
give 1 1 => did 1.0 ticket 1 sends 1
take 1 1 => initiates sends 1/2
give 1 2 => votes 1.0 yes 1 sends 2
take 1 2 => voted
give 2 0 => did 1.0 done sends 0
take 2 0 => sends 2/1 3/0
give 2 1 => did 1.0 ticket 1 sends 1
take 2 1 => sends 2/2
give 2 2 => votes 1.0 yes 1 sends 2
take 2 2 => voted
give 3 0 => did 1.0 done sends 0
take 3 0 => sends 3/1
give 3 1 => did 1.0 ticket 1 sends 1
take 3 1 => sends 3/2
give 3 2 => votes 1.0 yes 1 sends 2
take 3 2 => decides commit sends 1/3 2/3 3/3
give 3 3 => settles 1.0 commit
give 1 3 => settles 1.0 commit sends 3
take 1 3 => acked
give 2 3 => settles 1.0 commit sends 3
take 2 3 => forgets
halt 3 0 => stopped kept 3
back 3 => up epoch 2 doubtful 1
ask 3 1.0 => asks 1.0 sends 3
take 3 3 => presumes commit sends 3/4
give 3 4 => settles 1.0 commit",
    )
}

// Global 2 would have to stand after local 3 and before local 4, and global 1 before local 3 and after local 4. Only the tickets show it.
#[test]
fn tickets_show_a_cycle_through_locals(rt: HostRuntime) -> Result<(), Fail> {
    replays(
        &rt,
        rt.alloc(),
        "site 1 validation nothing
site 2 validation nothing
global 1 1/get:1 2/get:4
global 2 2/get:2 1/get:3
local 3 1 set:1:7 set:3:8
local 4 2 set:2:9 set:4:6
",
        "go 1 => begun 1.0 sends 1/0
go 2 => begun 2.0 sends 2/0
give 1 0 => did 1.0 value 0 sends 0
take 1 0 => sends 1/1 2/1
give 2 0 => did 2.0 value 0 sends 0
take 2 0 => sends 1/2 2/2
give 1 1 => did 1.0 ticket 1 sends 1
take 1 1 => sends 1/3
give 1 3 => votes 1.0 yes 1 sends 2
take 1 2 => voted
give 2 2 => did 2.0 ticket 1 sends 1
take 2 1 => sends 2/3
give 2 3 => votes 2.0 yes 1 sends 2
take 2 2 => voted
begin 3 => begun 3.0
step 3 => wrote 1 7
step 3 => wrote 3 8
commit 3 => committed 3.0 number 4
begin 4 => begun 4.0
step 4 => wrote 2 9
step 4 => wrote 4 6
commit 4 => committed 4.0 number 4
give 1 2 => did 2.0 value 8 sends 3
take 1 3 => sends 1/4
give 1 4 => did 2.0 ticket 2 sends 4
take 1 4 => sends 1/5
give 1 5 => votes 2.0 yes 2 sends 5
give 2 1 => did 1.0 value 6 sends 3
take 2 3 => sends 2/4
give 2 4 => did 1.0 ticket 2 sends 4
take 2 4 => sends 2/5
give 2 5 => votes 1.0 yes 2 sends 5
take 2 5 => decides commit sends 1/6 2/6
take 1 5 => decides abort cycle 2.0>1.0@2 1.0>2.0@1 sends 1/7 2/7
again 1.0 => sends 1/8 2/8
give 1 8 => settles 1.0 commit sends 6
take 1 6 => acked
give 2 8 => settles 1.0 commit sends 6
take 2 6 => forgets
again 2.0 => sends 1/9 2/9
give 1 9 => settles 2.0 abort sends 7
take 1 7 => acked
give 2 9 => settles 2.0 abort sends 7
take 2 7 => forgets",
    )
}

#[test]
fn nobody_hears_of_what_is_not_there(rt: HostRuntime) -> Result<(), Fail> {
    replays(
        &rt,
        rt.alloc(),
        "site 3 locking nothing
site 8 multiversion abort
local 4 8 set:1:7
",
        "begin 1 => none
go 4 => none
fate 1 => none
begin 4 => begun 4.0
step 4 => wrote 1 7
commit 4 => committed 4.0 number 1
fate 4 => committed 4.0
give 3 0 => none
take 8 0 => none
again 4.0 => none
ask 8 4.0 => idle
check 0 => checked
check 8 => checked
halt 0 0 => stopped kept 1
back 0 => up known 0",
    )
}
