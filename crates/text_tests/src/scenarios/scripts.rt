//! Scripts that are read, whole and cut.
use super::{bad_line, first_bad};
use mdb_base::{SiteId, Tid, Tx};
use scenario_text::{BadLine, BadWhy, Command, TextErr, read_commands, read_scenario};
use std::alloc::Global;
use std::test::Fail;

#[test]
fn commands_stand_in_no_scenario_alone(rt: HostRuntime) {
    let refused = match read_scenario(rt.alloc(), b"site 1 locking abort\ncommands\n") {
        Err(TextErr::Bad(bad)) => Some(bad),
        _ => None,
    };
    assert_eq!(rt; refused, bad_line(2, BadWhy::Word));
}

/// Every kind of line, in more than 1,024 bytes.
const SCRIPT: &str = "\
site 1 locking abort\n\
site 2 validation commit\n\
site 7 multiversion abort\n\
site 8 timestamp nothing\n\
item 1 10 500\n\
item 2 20 40\n\
item 8 65535 18446744073709551615\n\
global 1 1/get:10 1/add:10:0:18446744073709551516 2/get:20 2/add:20:1:100\n\
local 2 1 get:10\n\
local 3 2 get:20\n\
local 1024 8 get:65535 add:65535:0:1\n\
clients 16\n\
turns 100000\n\
tries 1\n\
policy conservative\n\
link to 1 0 drop\n\
link from 2 65535 twice\n\
link to 8 2 hold:64\n\
stop 0 1000 65535\n\
stop 2 4 0\n\
commands\n\
go 1\n\
begin 1024\n\
step 2\n\
commit 3\n\
abort 1024\n\
fate 7\n\
again 1.0\n\
late 1.31\n\
give 1 0\n\
take 8 4294967295\n\
ask 1 1.0\n\
drop 2 1.0\n\
halt 0 65535\n\
trip 2 0 0\n\
back 8\n\
check 0\n\
check 7\n\
give 1 0\n\
give 1 1\n\
give 1 2\n\
give 1 3\n\
give 1 4\n\
give 1 5\n\
give 1 6\n\
give 1 7\n\
give 1 8\n\
give 1 9\n\
give 1 10\n\
give 1 11\n\
give 1 12\n\
give 1 13\n\
give 1 14\n\
give 1 15\n\
give 1 16\n\
give 1 17\n\
give 1 18\n\
give 1 19\n\
give 1 20\n\
give 1 21\n\
give 1 22\n\
give 1 23\n\
give 1 24\n\
give 1 25\n\
give 1 26\n\
give 1 27\n\
give 1 28\n\
give 1 29\n\
give 1 30\n\
give 1 31\n\
give 1 32\n\
give 1 33\n\
give 1 34\n\
give 1 35\n\
give 1 36\n\
give 1 37\n\
give 1 38\n\
give 1 39\n\
give 1 40\n\
give 1 41\n\
give 1 42\n\
give 1 43\n\
give 1 44\n\
give 1 45\n\
give 1 46\n\
give 1 47\n\
";

/// The first bad line of the text with its byte at this place replaced by the byte 7.
fn first_bad_with_bell(
    alloc: Global,
    text: &[u8],
    place: usize,
) -> Result<Option<BadLine>, &'static str> {
    let mut bytes = text.to_vec(alloc).map_err(|_| "memory is ample")?;
    if place < bytes.len() {
        bytes[place] = 7;
    }
    first_bad(alloc, &bytes)
}

/// The first bad line of the front of a script: none where the front has whole lines alone.
fn cut_at(front: &[u8], line: u32) -> Option<BadLine> {
    match front.last() {
        None | Some(b'\n') => None,
        Some(_) => bad_line(line, BadWhy::Ending),
    }
}

#[test]
fn each_cut_and_each_replaced_byte_of_a_script(rt: HostRuntime) {
    let text = SCRIPT.as_bytes();
    assert!(rt; 1_024 <= text.len());
    let mut line: u32 = 1;
    for (place, byte) in text.iter().enumerate() {
        let front = &text[..place];
        assert_eq!(rt; first_bad(rt.alloc(), front), Ok(cut_at(front, line)));
        // A bell makes its line bad; in place of the last line feed it leaves a line without one.
        let why = if place + 1 == text.len() {
            BadWhy::Ending
        } else {
            BadWhy::Bytes
        };
        assert_eq!(rt;
            first_bad_with_bell(rt.alloc(), text, place),
            Ok(bad_line(line, why))
        );
        if *byte == b'\n' {
            line = line.saturating_add(1);
        }
    }
    assert_eq!(rt; first_bad(rt.alloc(), text), Ok(None));
}

#[test]
fn a_script_with_every_kind_of_line(rt: HostRuntime) -> Result<(), Fail> {
    let session = read_commands(rt.alloc(), SCRIPT.as_bytes())
        .ok()
        .ok_or("the script is read")?;
    let scenario = &session.scenario;
    assert_eq!(rt;
        (
            scenario.sites.len(),
            scenario.items.len(),
            scenario.transactions.len()
        ),
        (4, 3, 4)
    );
    assert_eq!(rt;
        (
            scenario.links.len(),
            scenario.stops.len(),
            session.commands.len()
        ),
        (3, 2, 65)
    );
    assert_eq!(rt;
        (scenario.clients, scenario.turns, scenario.tries),
        (16, 100_000, 1)
    );
    assert!(rt; scenario.conservative);
    assert!(rt;
        matches!(
            session.commands.as_slice().get(16),
            Some(Command::Check { actor: 7 })
        )
    );
    assert!(rt;
        matches!(
            session.commands.as_slice().last(),
            Some(Command::Give {
                site: SiteId(1),
                place: 47
            })
        )
    );
    Ok(())
}

#[test]
fn commands_in_their_order(rt: HostRuntime) -> Result<(), Fail> {
    let text =
        b"site 3 timestamp abort\ncommands\ngo 1\nlate 1.31\ntake 3 7\nask 3 2.0\ntrip 3 1 2\n";
    let session = read_commands(rt.alloc(), text)
        .ok()
        .ok_or("the commands are read")?;
    let commands = session.commands.as_slice();
    assert_eq!(rt; commands.len(), 5);
    assert!(rt; matches!(commands.get(0), Some(Command::Go(Tx(1)))));
    assert!(rt;
        matches!(
            commands.get(1),
            Some(Command::Late(Tid {
                tx: Tx(1),
                attempt: 31
            }))
        )
    );
    assert!(rt;
        matches!(
            commands.get(2),
            Some(Command::Take {
                site: SiteId(3),
                place: 7
            })
        )
    );
    assert!(rt;
        matches!(
            commands.get(3),
            Some(Command::Ask {
                site: SiteId(3),
                tid: Tid {
                    tx: Tx(2),
                    attempt: 0
                }
            })
        )
    );
    assert!(rt;
        matches!(
            commands.get(4),
            Some(Command::Trip {
                actor: 3,
                calls: 1,
                cut: 2
            })
        )
    );
    Ok(())
}

#[test]
fn settings_that_no_line_gives(rt: HostRuntime) -> Result<(), Fail> {
    let scenario = read_scenario(rt.alloc(), b"")
        .ok()
        .ok_or("no line is a scenario")?;
    assert_eq!(rt; (scenario.sites.len(), scenario.transactions.len()), (0, 0));
    assert_eq!(rt;
        (scenario.clients, scenario.turns, scenario.tries),
        (4, 1_000, 4)
    );
    assert!(rt; !scenario.conservative);
    Ok(())
}
