//! Attempts whose sites all have one protocol, in whole sessions.
use super::expect;

// One global at one site, whose coordinator stops.
pub(super) const UNIFORM: [(&str, &str); 4] = [
    // Presumed abort keeps no record before the decision: the coordinator that comes back knows nothing, and presumes abort.
    (
        "site 1 locking abort
global 1 1/set:1:1
commands
go 1
give 1 0
take 1 0
give 1 1
take 1 1
give 1 2
halt 0 0
back 0
ask 1 1.0
take 1 3
give 1 3
",
        "go 1 => begun 1.0 sends 1/0
give 1 0 => did 1.0 done sends 0
take 1 0 => sends 1/1
give 1 1 => did 1.0 ticket 1 sends 1
take 1 1 => sends 1/2
give 1 2 => votes 1.0 yes 1 sends 2
halt 0 0 => stopped kept 0
back 0 => up known 0
ask 1 1.0 => asks 1.0 sends 3
take 1 3 => presumes abort sends 1/3
give 1 3 => settles 1.0 abort
order
outcome 1.0 abort
forgotten 1.0
table 1
end
",
    ),
    // Presumed nothing forces a record of an abort, which is kept here: what was decided is told again.
    (
        "site 1 locking nothing
global 1 1/set:1:1
commands
go 1
give 1 0
take 1 0
give 1 1
take 1 1
give 1 2
trip 0 1 65535
late 1.0
back 0
",
        "go 1 => begun 1.0 sends 1/0
give 1 0 => did 1.0 done sends 0
take 1 0 => sends 1/1
give 1 1 => did 1.0 ticket 1 sends 1
take 1 1 => sends 1/2
give 1 2 => votes 1.0 yes 1 sends 2
trip 0 1 65535 => set
late 1.0 => stopped kept 1
back 0 => up known 1
again 1.0 => sends 1/3
give 1 3 => settles 1.0 abort sends 3
take 1 3 => forgets
order
outcome 1.0 abort
forgotten 1.0
table 1
end
",
    ),
    // The same record is lost here, and the site is answered by its presumption.
    (
        "site 1 locking nothing
global 1 1/set:1:1
commands
go 1
give 1 0
take 1 0
give 1 1
take 1 1
give 1 2
trip 0 1 0
late 1.0
back 0
",
        "go 1 => begun 1.0 sends 1/0
give 1 0 => did 1.0 done sends 0
take 1 0 => sends 1/1
give 1 1 => did 1.0 ticket 1 sends 1
take 1 1 => sends 1/2
give 1 2 => votes 1.0 yes 1 sends 2
trip 0 1 0 => set
late 1.0 => stopped kept 0
back 0 => up known 0
ask 1 1.0 => asks 1.0 sends 3
take 1 3 => presumes abort sends 1/3
give 1 3 => settles 1.0 abort sends 4
order
outcome 1.0 abort
forgotten 1.0
table 1
end
",
    ),
    // Presumed commit forgets at once what it commits: the site asks, and is answered by its presumption.
    (
        "site 1 locking commit
global 1 1/set:1:1
commands
go 1
give 1 0
take 1 0
give 1 1
take 1 1
give 1 2
take 1 2
halt 0 65535
back 0
",
        "go 1 => begun 1.0 sends 1/0
give 1 0 => did 1.0 done sends 0
take 1 0 => sends 1/1
give 1 1 => did 1.0 ticket 1 sends 1
take 1 1 => initiates sends 1/2
give 1 2 => votes 1.0 yes 1 sends 2
take 1 2 => decides commit forgets sends 1/3
halt 0 65535 => stopped kept 2
back 0 => up known 0
ask 1 1.0 => asks 1.0 sends 3
take 1 3 => presumes commit sends 1/4
give 1 4 => settles 1.0 commit
order 1.0
reads 1.0
outcome 1.0 commit
forgotten 1.0
table 1 1=1
end
",
    ),
];

#[test]
fn attempts_of_one_protocol_end_as_it_says(rt: HostRuntime) {
    for (input, output) in UNIFORM.iter() {
        expect(&rt, input, 0, output);
    }
}
