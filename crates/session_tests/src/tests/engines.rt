//! What the rules of the sites refuse and allow, in whole sessions.
use super::expect;

// What is refused at a site.
pub(super) const REFUSED: [(&str, &str); 3] = [
    // At validation a read that a local overwrote is invalid, beside a global that never begins.
    (
        "site 1 validation abort
local 1 1 get:5 set:6:1
local 2 1 set:5:9
global 3 1/set:5:9
commands
begin 1
begin 2
step 1
step 2
commit 2
step 1
commit 1
",
        "begin 1 => begun 1.0
begin 2 => begun 2.0
step 1 => read 5 0
step 2 => wrote 5 9
commit 2 => committed 2.0 number 3
step 1 => wrote 6 1
commit 1 => invalid 2.0 5
order 2.0
reads 2.0
forgotten
table 1 5=9
end
",
    ),
    // At validation a read that a prepared global overwrites is invalid, also where that global aborts later.
    (
        "site 1 validation abort
local 1 1 get:5 set:6:1
local 2 1 set:5:9
global 3 1/set:5:9
commands
go 3
give 1 0
take 1 0
give 1 1
take 1 1
give 1 2
begin 1
step 1
step 1
commit 1
",
        "go 3 => begun 3.0 sends 1/0
give 1 0 => did 3.0 done sends 0
take 1 0 => sends 1/1
give 1 1 => did 3.0 ticket 1 sends 1
take 1 1 => sends 1/2
give 1 2 => votes 3.0 yes 1 sends 2
begin 1 => begun 1.0
step 1 => read 5 0
step 1 => wrote 6 1
commit 1 => invalid 3.0 5
late 3.0 => decides abort late forgets sends 1/3
ask 1 3.0 => asks 3.0 sends 3
take 1 3 => presumes abort sends 1/4
give 1 4 => settles 3.0 abort
order
outcome 3.0 abort
forgotten 3.0
table 1
end
",
    ),
    // With versions an old writer is too late where a younger one has read what stood before.
    (
        "site 1 multiversion nothing
local 1 1 set:5:1
local 2 1 get:5
commands
begin 1
begin 2
step 2
step 1
",
        "begin 1 => begun 1.0
begin 2 => begun 2.0
step 2 => read 5 0
step 1 => late 2.0
abort 2 => aborted 2.0
order
forgotten
table 1
end
",
    ),
];

// What is granted at a site.
pub(super) const GRANTED: [(&str, &str); 1] = [
    // The greatest key, value and numbers of a site and a transaction, and a sum that passes the greatest value.
    (
        "site 8 timestamp nothing
item 8 65535 18446744073709551615
local 1024 8 get:65535 add:65535:0:1
commands
begin 1024
step 1024
step 1024
commit 1024
",
        "begin 1024 => begun 1024.0
step 1024 => read 65535 18446744073709551615
step 1024 => wrote 65535 0
commit 1024 => committed 1024.0 number 1
order 1024.0
reads 1024.0 18446744073709551615
forgotten
table 8 65535=0
end
",
    ),
];

#[test]
fn what_a_site_refuses_is_told(rt: HostRuntime) {
    for (input, output) in REFUSED.iter() {
        expect(&rt, input, 0, output);
    }
}

#[test]
fn the_greatest_numbers_are_read_and_written(rt: HostRuntime) {
    for (input, output) in GRANTED.iter() {
        expect(&rt, input, 0, output);
    }
}
