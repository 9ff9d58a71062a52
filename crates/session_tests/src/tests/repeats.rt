//! A session whose messages come again behind its commands.
use super::replayed;
use super::sessions::PRESUMPTIONS;
use std::alloc::Global;
use std::process::Abort;
use std::sync::Wait;
use std::test::Fail;
use std::thread::Threads;

/// The site of a line whose first word is followed by one.
fn site_in(line: &str) -> Option<&str> {
    let (_, rest) = line.split_once(' ')?;
    let (site, _) = rest.split_once(' ')?;
    Some(site)
}

/// The command that gives or takes the message of this place again, where this line sends it.
fn repeat_of(alloc: Global, line: &str, place: &str) -> Result<String, Fail> {
    match place.split_once('/') {
        Some((site, number)) => Ok(format!(in alloc; "give {site} {number}\n")?),
        None => match site_in(line) {
            Some(site) => Ok(format!(in alloc; "take {site} {place}\n")?),
            None => Err(Fail::from("the line is of a site")),
        },
    }
}

/// Adds the commands that give or take the messages of these places again, which this line sends.
fn push_repeats(
    alloc: Global,
    commands: &mut String,
    line: &str,
    places: &str,
) -> Result<(), Fail> {
    for place in places.split_whitespace() {
        commands.push_str(&repeat_of(alloc, line, place)?)?;
    }
    Ok(())
}

/// The commands that give or take each message of these lines again, of each channel by rising place.
fn repeats_of(alloc: Global, lines: &str) -> Result<String, Fail> {
    let mut commands = String::new(alloc);
    for line in lines.lines() {
        if let Some((_, places)) = line.split_once("sends ") {
            push_repeats(alloc, &mut commands, line, places)?;
        }
    }
    Ok(commands)
}

/// Whether the session has its report with these commands behind its own too, each of which finds its message.
fn reports_alike(
    rt: &(impl Threads + Wait + Sync + AllocGlobal),
    commands: &str,
) -> Result<bool, Fail> {
    let (input, output) = PRESUMPTIONS;
    let longer = format!(in rt.alloc(); "{input}{commands}")?;
    let (status, put) = replayed(rt, longer.as_bytes())?;
    let Ok(text) = str::from_utf8(&put) else {
        return Ok(false);
    };
    let (Some((lines, report)), Some((_, same))) = (
        text.split_once("\norder"),
        output.split_once("\norder"),
    ) else {
        return Ok(false);
    };
    Ok(status == 0 && !lines.contains("=> none") && report == same)
}

/// 25 messages, 13 to the sites and 12 from them: each comes again alone, and then they all come again.
#[test]
fn messages_that_come_again_change_no_report(rt: HostRuntime) -> Result<(), Fail> {
    let repeats = repeats_of(rt.alloc(), PRESUMPTIONS.1)?;
    let mut repeated: u32 = 0;
    for repeat in repeats.lines() {
        let command = format!(in rt.alloc(); "{repeat}\n")?;
        assert!(rt; reports_alike(&rt, &command)?, "{repeat}");
        repeated = repeated.saturating_add(1);
    }
    assert_eq!(rt; repeated, 25);
    assert!(rt; reports_alike(&rt, &repeats)?, "{repeats}");
    Ok(())
}
