//! Sweeps over the input of a call: it is carried out again and again, each time with another input.
use crate::calls::{Bench, Call};
use crate::faults::NONE;
use crate::headers::{number, text_of};
use crate::printed::{begun_with, lines_in, report_of, submitted};
use crate::streams::End;
use crate::sweeps::{CUTS, Whole, at, counted};
use crate::wrong::Wrong;
use mdb_base::put_text;
use std::alloc::Global;
use std::sync::Wait;
use std::thread::Threads;

/// Whether the audit of this input and of what it ended with agrees.
fn is_agreed<R: Threads + Wait + Sync + AllocGlobal>(
    rt: &R,
    input: &[u8],
    bench: &mut Bench,
) -> Result<bool, Wrong> {
    let text = submitted(rt.alloc(), text_of(input)?, bench.end().output)?;
    bench.carry_out(rt, Call::new("audit", &text), NONE)?;
    Ok(bench.ending.status == 0 && bench.end().output == "agrees\n")
}

/// The line after these bytes is named, for this reason.
fn is_named(end: End, front: &[u8], why: &str, place: u32) -> Result<(), Wrong> {
    let line = lines_in(front).saturating_add(1);
    let named = match end.output.strip_prefix("bad line ") {
        Some(rest) => rest.strip_suffix(why).unwrap_or(""),
        None => "",
    };
    if end.status == 2 && named.parse::<u32>() == Ok(line) {
        Ok(())
    } else {
        Err(at(place))
    }
}

/// A front of the input with whole lines is a session, whose output agrees with it, and of another front the last line is named.
fn cut_at<R: Threads + Wait + Sync + AllocGlobal>(
    rt: &R,
    whole: Whole,
    bench: &mut Bench,
    place: u32,
) -> Result<(), Wrong> {
    let front = whole.call.input.get(..place as usize).unwrap_or(&[]);
    bench.carry_out(rt, whole.call.with(front), NONE)?;
    if !matches!(front.last(), None | Some(b'\n')) {
        return is_named(bench.end(), front, " ending\n", place);
    }
    if bench.ending.status == 0 && is_agreed(rt, front, bench)? {
        Ok(())
    } else {
        Err(at(place))
    }
}

/// How many bytes the input has.
fn bytes_of(whole: Whole) -> u32 {
    match u32::try_from(whole.call.input.len()) {
        Ok(bytes) => bytes,
        Err(_) => u32::MAX,
    }
}

/// The input is cut before each of its bytes, of which there are so many.
pub(crate) fn each_cut<R: Threads + Wait + Sync + AllocGlobal>(
    rt: &R,
    whole: Whole,
    bench: &mut Bench,
    wanted: u32,
) -> Result<(), Wrong> {
    let bytes = bytes_of(whole);
    for place in 0..bytes {
        cut_at(rt, whole, bench, place)?;
    }
    counted(bytes, wanted)
}

/// Of the input that has byte 7 in this place its line is named: for that byte, or for want of a line feed where the byte stands in place of
/// the last one.
fn replaced_at<R: Threads + Wait + Sync + AllocGlobal>(
    rt: &R,
    whole: Whole,
    bench: &mut Bench,
    place: u32,
) -> Result<(), Wrong> {
    let mut input = Vec::from_slice(rt.alloc(), whole.call.input)?;
    let why = if place.saturating_add(1) == bytes_of(whole) {
        " ending\n"
    } else {
        " bytes\n"
    };
    if let Some(byte) = input.get_mut(place as usize) {
        *byte = 7;
    }
    bench.carry_out(rt, whole.call.with(&input), NONE)?;
    let front = whole.call.input.get(..place as usize).unwrap_or(&[]);
    is_named(bench.end(), front, why, place)
}

/// Each byte of the input, of which there are so many, has byte 7 in its place, which no line may have.
pub(crate) fn each_byte<R: Threads + Wait + Sync + AllocGlobal>(
    rt: &R,
    whole: Whole,
    bench: &mut Bench,
    wanted: u32,
) -> Result<(), Wrong> {
    let bytes = bytes_of(whole);
    for place in 0..bytes {
        replaced_at(rt, whole, bench, place)?;
    }
    counted(bytes, wanted)
}

/// What a trip does to a session.
#[derive(Clone, Copy)]
struct Effect {
    /// The lines are others: an actor has stopped.
    stops: bool,
    /// The report is as it was.
    stays: bool,
}

/// What the lines of this output show of a trip.
fn effect_on(old: &str, new: &str) -> Effect {
    let (lines, _) = old.split_once("\norder").unwrap_or((old, ""));
    Effect {
        stops: !new.contains(lines),
        stays: report_of(old) == report_of(new),
    }
}

/// What the trip in this input does to the session, whose output agrees with it.
fn tripped<R: Threads + Wait + Sync + AllocGlobal>(
    rt: &R,
    whole: Whole,
    bench: &mut Bench,
    input: &[u8],
) -> Result<Option<Effect>, Wrong> {
    bench.carry_out(rt, whole.call.with(input), NONE)?;
    let effect = effect_on(whole.end.output, bench.end().output);
    if bench.ending.status == 0 && is_agreed(rt, input, bench)? {
        Ok(Some(effect))
    } else {
        Ok(None)
    }
}

/// What a trip after this call of this actor with this cut does to the session.
fn tripped_at<R: Threads + Wait + Sync + AllocGlobal>(
    rt: &R,
    whole: Whole,
    bench: &mut Bench,
    actor: u32,
    number: u32,
    cut: u32,
) -> Result<Effect, Wrong> {
    let trip = format!(in rt.alloc(); "trip {actor} {number} {cut}")?;
    let input = begun_with(rt.alloc(), text_of(whole.call.input)?, trip.as_str())?;
    match tripped(rt, whole, bench, &input)? {
        Some(effect) => Ok(effect),
        None => Err(at(number)),
    }
}

/// A trip after this call of this actor stops it with so many of the cuts, and with so many of these the report is as it was.
fn trips_so<R: Threads + Wait + Sync + AllocGlobal>(
    rt: &R,
    whole: Whole,
    bench: &mut Bench,
    actor: u32,
    number: u32,
    wanted: (u32, u32),
) -> Result<(), Wrong> {
    let mut stopped: u32 = 0;
    let mut stayed: u32 = 0;
    for cut in CUTS {
        let effect = tripped_at(rt, whole, bench, actor, number, cut)?;
        stopped = stopped.saturating_add(u32::from(effect.stops));
        stayed = stayed.saturating_add(u32::from(effect.stops && effect.stays));
    }
    if (stopped, stayed) == wanted {
        Ok(())
    } else {
        Err(at(number))
    }
}

/// The two numbers of `STOPPED/STAYED`.
fn pair(word: &str) -> Result<(u32, u32), Wrong> {
    match word.split_once('/') {
        Some((first, second)) => Ok((number(first)?, number(second)?)),
        None => Err(Wrong::Header),
    }
}

/// A trip stops the actor after each of its calls in turn, as the words say.
pub(crate) fn each_trip<R: Threads + Wait + Sync + AllocGlobal>(
    rt: &R,
    whole: Whole,
    bench: &mut Bench,
    actor: u32,
    words: &str,
) -> Result<(), Wrong> {
    let mut calls: u32 = 1;
    for word in words.split_whitespace() {
        trips_so(rt, whole, bench, actor, calls, pair(word)?)?;
        calls = calls.saturating_add(1);
    }
    Ok(())
}

/// Adds the command that gives or takes the message of this place again, which a line of this command sends.
fn push_repeat(commands: &mut String, command: &str, place: &str) -> Result<(), Wrong> {
    let (word, site, message) = match place.split_once('/') {
        Some((site, message)) => ("give ", site, message),
        None => ("take ", command.split(' ').nth(1).unwrap_or(""), place),
    };
    for part in [word, site, " ", message, "\n"] {
        commands.push_str(part)?;
    }
    Ok(())
}

/// The commands that give or take each message of these lines again.
fn repeats_of(alloc: Global, output: &str) -> Result<String, Wrong> {
    let mut commands = String::new(alloc);
    for line in output.lines() {
        if let Some((command, places)) = line.split_once("sends ") {
            for place in places.split(' ') {
                push_repeat(&mut commands, command, place)?;
            }
        }
    }
    Ok(commands)
}

/// Whether it has the report of the whole session, and each message was found.
fn is_same(whole: End, end: End) -> bool {
    end.status == 0
        && !end.output.contains("=> none")
        && report_of(whole.output) == report_of(end.output)
}

/// The session has its report with these commands after its own too, which find their messages.
fn is_repeated<R: Threads + Wait + Sync + AllocGlobal>(
    rt: &R,
    whole: Whole,
    bench: &mut Bench,
    commands: [&str; 2],
) -> Result<bool, Wrong> {
    let mut input = Vec::from_slice(rt.alloc(), whole.call.input)?;
    for command in commands {
        put_text(&mut input, command)?;
    }
    bench.carry_out(rt, whole.call.with(&input), NONE)?;
    Ok(is_same(whole.end, bench.end()))
}

/// The session is repeated with each of these commands, of which there are so many, and with all.
fn repeats_each<R: Threads + Wait + Sync + AllocGlobal>(
    rt: &R,
    whole: Whole,
    bench: &mut Bench,
    commands: &str,
    wanted: u32,
) -> Result<(), Wrong> {
    let mut repeated: u32 = 0;
    for command in commands.lines() {
        if !is_repeated(rt, whole, bench, [command, "\n"])? {
            return Err(at(repeated));
        }
        repeated = repeated.saturating_add(1);
    }
    if is_repeated(rt, whole, bench, [commands, ""])? {
        counted(repeated, wanted)
    } else {
        Err(at(repeated))
    }
}

/// Each message of the session, of which there are so many, comes again after its commands, and then they all come.
pub(crate) fn each_message<R: Threads + Wait + Sync + AllocGlobal>(
    rt: &R,
    whole: Whole,
    bench: &mut Bench,
    wanted: u32,
) -> Result<(), Wrong> {
    let commands = repeats_of(rt.alloc(), whole.end.output)?;
    repeats_each(rt, whole, bench, commands.as_str(), wanted)
}
