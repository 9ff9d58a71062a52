//! Orders of tickets, in whole sessions.
use super::expect;

// Two globals at one site or two.
pub(super) const TICKETS: [(&str, &str); 3] = [
    // The order is that of the tickets, and not that of the decisions.
    (
        "site 1 locking nothing
global 1 1/set:1:1
global 2 1/set:2:2
commands
go 1
go 2
give 1 0
give 1 1
take 1 0
take 1 1
give 1 2
take 1 2
give 1 4
give 1 3
take 1 4
give 1 5
take 1 5
take 1 3
",
        "go 1 => begun 1.0 sends 1/0
go 2 => begun 2.0 sends 1/1
give 1 0 => did 1.0 done sends 0
give 1 1 => did 2.0 done sends 1
take 1 0 => sends 1/2
take 1 1 => sends 1/3
give 1 2 => did 1.0 ticket 1 sends 2
take 1 2 => sends 1/4
give 1 4 => votes 1.0 yes 1 sends 3
give 1 3 => did 2.0 ticket 2 sends 4
take 1 4 => sends 1/5
give 1 5 => votes 2.0 yes 2 sends 5
take 1 5 => decides commit sends 1/6
take 1 3 => decides commit sends 1/7
again 1.0 => sends 1/8
give 1 8 => settles 1.0 commit sends 6
take 1 6 => forgets
again 2.0 => sends 1/9
give 1 9 => settles 2.0 commit sends 7
take 1 7 => forgets
order 1.0 2.0
reads 1.0
reads 2.0
outcome 1.0 commit
outcome 2.0 commit
forgotten 1.0 2.0
table 1 1=1 2=2
end
",
    ),
    // Until the older one has voted it holds the ticket of a locking site, and the younger one dies.
    (
        "site 1 locking nothing
global 1 1/set:1:1
global 2 1/set:2:2
commands
go 1
go 2
give 1 0
give 1 1
take 1 0
take 1 1
give 1 2
take 1 2
give 1 3
",
        "go 1 => begun 1.0 sends 1/0
go 2 => begun 2.0 sends 1/1
give 1 0 => did 1.0 done sends 0
give 1 1 => did 2.0 done sends 1
take 1 0 => sends 1/2
take 1 1 => sends 1/3
give 1 2 => did 1.0 ticket 1 sends 2
take 1 2 => sends 1/4
give 1 3 => did 2.0 dies 1.0 sends 3
late 1.0 => decides abort late sends 1/5
late 2.0 => decides abort late forgets sends 1/6
drop 1 1.0 => dropped 1.0
again 1.0 => sends 1/7
give 1 7 => unheld 1.0 sends 4
take 1 4 => forgets
order
outcome 1.0 abort
outcome 2.0 abort
forgotten 1.0 2.0
table 1
end
",
    ),
    // By the conservative method the second one takes no ticket while the first one is in its phase at the same sites.
    (
        "site 1 validation nothing
site 2 validation nothing
global 1 1/get:1 2/set:2:5
global 2 2/get:2 1/set:1:7
policy conservative
commands
go 1
go 2
give 1 0
take 1 0
give 2 0
take 2 0
give 1 2
take 1 1
again 2.0
give 1 1
take 1 2
give 1 3
take 1 3
give 2 1
take 2 1
give 2 2
take 2 2
give 2 3
take 2 3
again 2.0
",
        "go 1 => begun 1.0 sends 1/0
go 2 => begun 2.0 sends 2/0
give 1 0 => did 1.0 value 0 sends 0
take 1 0 => sends 1/1 2/1
give 2 0 => did 2.0 value 0 sends 0
take 2 0 => defers sends 1/2
give 1 2 => did 2.0 done sends 1
take 1 1 => defers
again 2.0 => defers
give 1 1 => did 1.0 ticket 1 sends 2
take 1 2 => sends 1/3
give 1 3 => votes 1.0 yes 1 sends 3
take 1 3 => voted
give 2 1 => did 1.0 done sends 1
take 2 1 => sends 2/2
give 2 2 => did 1.0 ticket 1 sends 2
take 2 2 => sends 2/3
give 2 3 => votes 1.0 yes 1 sends 3
take 2 3 => decides commit sends 1/4 2/4
again 2.0 => sends 1/5 2/5
late 2.0 => decides abort late forgets sends 1/6 2/6
drop 1 2.0 => dropped 2.0
drop 2 2.0 => dropped 2.0
again 1.0 => sends 1/7 2/7
give 1 7 => settles 1.0 commit sends 4
take 1 4 => acked
give 2 7 => settles 1.0 commit sends 4
take 2 4 => forgets
order 1.0
reads 1.0 0
outcome 1.0 commit
outcome 2.0 abort
forgotten 1.0 2.0
table 1
table 2 2=5
end
",
    ),
];

#[test]
fn tickets_are_taken_and_ordered(rt: HostRuntime) {
    for (input, output) in TICKETS.iter() {
        expect(&rt, input, 0, output);
    }
}
