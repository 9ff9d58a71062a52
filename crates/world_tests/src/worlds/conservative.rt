//! Whole sessions whose tickets are taken by the conservative method.
use super::replays;
use std::test::Fail;

// Both had read before the other one wrote. Had both taken their tickets at once, one would be refused.
#[test]
fn opposite_tickets_are_taken_conservatively(rt: HostRuntime) -> Result<(), Fail> {
    replays(
        &rt,
        rt.alloc(),
        "site 1 validation nothing
site 2 validation nothing
global 1 1/get:1 2/set:2:5
global 2 2/get:2 1/set:1:7
policy conservative
",
        "go 1 => begun 1.0 sends 1/0
go 2 => begun 2.0 sends 2/0
give 1 0 => did 1.0 value 0 sends 0
take 1 0 => sends 1/1 2/1
give 2 0 => did 2.0 value 0 sends 0
take 2 0 => defers sends 1/2
give 1 2 => did 2.0 done sends 1
take 1 1 => defers
again 2.0 => defers
give 1 1 => did 1.0 ticket 1 sends 2
take 1 2 => sends 1/3
give 1 3 => votes 1.0 yes 1 sends 3
take 1 3 => voted
give 2 1 => did 1.0 done sends 1
take 2 1 => sends 2/2
give 2 2 => did 1.0 ticket 1 sends 2
take 2 2 => sends 2/3
give 2 3 => votes 1.0 yes 1 sends 3
take 2 3 => decides commit sends 1/4 2/4
again 2.0 => sends 1/5 2/5",
    )
}

// Transaction 921 begins again behind an attempt that a site doesn't know any more.
#[test]
fn a_second_attempt_commits(rt: HostRuntime) -> Result<(), Fail> {
    replays(
        &rt,
        rt.alloc(),
        "site 6 timestamp abort
site 2 timestamp abort
site 4 timestamp abort
item 6 0 2
item 2 3 100
local 692 4 get:3 get:3
global 921 4/set:1:1
local 793 6 set:1:14323041120831678988
local 271 2 set:1:21594124324711095 set:3:18446744073709551615 set:1:18446744073709551615
policy conservative
",
        "go 921 => begun 921.0 sends 4/0
give 4 0 => did 921.0 done sends 0
take 4 0 => sends 4/1
fate 692 => unbegun
begin 793 => begun 793.0
begin 692 => begun 692.0
drop 4 921.0 => dropped 921.0
step 692 => read 3 0
give 4 1 => did 921.0 unknown sends 1
step 793 => wrote 1 14323041120831678988
take 4 1 => decides abort site 4 unknown forgets sends 4/2
commit 793 => committed 793.0 number 1
begin 271 => begun 271.0
go 921 => begun 921.1 sends 4/3
give 4 2 => unheld 921.0
back 6 => awake
step 692 => read 3 0
check 2 => checked
give 4 3 => did 921.1 done sends 2
take 4 2 => sends 4/4
give 4 4 => did 921.1 ticket 1 sends 3
take 4 3 => sends 4/5
give 4 5 => votes 921.1 yes 1 sends 4
commit 692 => committed 692.0 number 2
take 4 4 => decides commit sends 4/6
step 271 => wrote 1 21594124324711095
step 271 => wrote 3 18446744073709551615
step 271 => wrote 1 18446744073709551615
abort 271 => aborted 271.0
again 921.1 => sends 4/7
give 4 7 => settles 921.1 commit sends 5
take 4 5 => forgets",
    )
}

// The first attempt of transaction 2 reads twice and is lost by a stop; the second one reads again, writes and commits.
#[test]
fn a_second_attempt_of_a_local_one_commits(rt: HostRuntime) -> Result<(), Fail> {
    replays(
        &rt,
        rt.alloc(),
        "site 6 validation commit
site 5 validation commit
site 1 validation nothing
item 5 2 100
global 1 1/set:2:0 1/set:2:100 1/get:2
local 2 6 get:2 get:2 set:2:100
policy conservative
",
        "go 1 => begun 1.0 sends 1/0
begin 2 => begun 2.0
step 2 => read 2 0
give 1 0 => did 1.0 done sends 0
step 2 => read 2 0
again 1.0 => sends 1/1
fate 1 => running 1.0
halt 6 58 => stopped kept 2
give 1 1 => did 1.0 done sends 1
take 1 0 => sends 1/2
give 1 2 => did 1.0 done sends 2
take 1 2 => sends 1/3
give 1 0 => did 1.0 unknown sends 3
back 6 => up epoch 2 doubtful 0
take 1 3 => ignored
trip 6 0 2 => set
give 1 3 => did 1.0 value 100 sends 4
take 1 4 => sends 1/4
give 1 4 => did 1.0 ticket 1 sends 5
take 1 5 => sends 1/5
give 1 5 => votes 1.0 yes 1 sends 6
take 1 6 => decides commit sends 1/6
give 1 6 => settles 1.0 commit sends 7
take 1 7 => forgets
check 0 => checked
begin 2 => begun 2.1
step 2 => read 2 0
step 2 => read 2 0
step 2 => wrote 2 100
commit 2 => committed 2.1 number 2
go 1 => committed 1.0
begin 2 => committed 2.1",
    )
}

#[test]
fn multiversion_sites_take_old_messages_again(rt: HostRuntime) -> Result<(), Fail> {
    replays(
        &rt,
        rt.alloc(),
        "site 7 multiversion commit
site 2 multiversion commit
site 6 multiversion commit
item 7 0 1
item 6 0 100
local 1 7 set:0:1 set:0:18446744073709551516 set:0:2 get:0 set:0:14559202109082466426 get:0
global 2 2/set:0:9580678927802332460
policy conservative
",
        "go 2 => begun 2.0 sends 2/0
give 2 0 => did 2.0 done sends 0
take 2 0 => sends 2/1
give 2 1 => did 2.0 ticket 1 sends 1
begin 1 => begun 1.0
step 1 => wrote 0 1
step 1 => wrote 0 18446744073709551516
go 2 => running 2.0
again 2.0 => sends 2/2
step 1 => wrote 0 2
step 1 => read 0 2
again 2.0 => sends 2/3
give 2 3 => did 2.0 ticket 1 sends 2
step 1 => wrote 0 14559202109082466426
take 2 2 => initiates sends 2/4
give 2 4 => votes 2.0 yes 1 sends 3
give 2 4 => votes 2.0 yes 1 sends 4
take 2 2 => ignored
take 2 3 => decides commit forgets sends 2/5
step 1 => read 0 14559202109082466426
give 2 5 => settles 2.0 commit
commit 1 => committed 1.0 number 1
go 2 => committed 2.0",
    )
}
