//! What a site hears, with what the world keeps of it.
ghost use Rattle.std.specs.Prelude.{◌<◌, ◌^◌, ◌≡◌, ◌++◌, IsSome, IsTrue, IfErr, OnErr, OnOk, length, option_to_list, true, vec_len, vec_capacity};
ghost use Rattle.mdb_base.specs.Counts.{HasCauseOf};
ghost use Rattle.any_engine.specs.Stands as Engines;
ghost use Rattle.fed_rules.specs.Story.{place_from};
ghost use Rattle.local_dbms.specs.Asks.{CanAsk, can_send};
ghost use Rattle.local_dbms.specs.Stands as Dbms;
ghost use Rattle.local_dbms.specs.Stands.{Some_site};
ghost use Rattle.fed_world.specs.Lines.{AddsWhere};
ghost use Rattle.fed_world.specs.SeatParts.{FailsOn, ServesOn};

use any_engine::AnyEngine;
use fed_rules::{Command, FromSite, Line, Place, Places};
use journal_disk::Disk;
use local_dbms::{LocalDbms, SiteAsk, StepErr};
use mdb_base::Memory;
use session_report::Marks;
use session_routes::Traffic;
use std::alloc::Global;

/// Whether a site that is asked this can send something.
fn can_send(ask: SiteAsk) -> bool
    ensures { result ≡ can_send ask }
{
    match ask {
        SiteAsk::Give(_) | SiteAsk::Ask(_) => true,
        _ => false,
    }
}

/// Makes room for what a site that is asked this can send. Where it can send nothing, no memory is taken. What is kept stays.
fn make_room(from: &mut Vec<FromSite>, ask: SiteAsk) -> Result<(), Memory>
    ensures messages { OnOk result (can_send ask ≡ true → vec_len from.new < vec_capacity from.new) }
    ensures from { from.new.items ≡ from.old.items }
{
    if can_send(ask) {
        from.reserve(1)?;
    }
    Ok(())
}

/// Puts what a site sends behind what it sent, where there is room, and gives its place.
fn post(traffic: &mut Traffic, send: Option<FromSite>) -> Places
    requires room { IsSome send → vec_len traffic.old.from < vec_capacity traffic.old.from }
    requires few { length traffic.old.from.items < 2 ^ 32 }
    ensures places { result ≡ place_from traffic.old.site (length traffic.old.from.items) (option_to_list send) }
    ensures site { traffic.new.site ≡ traffic.old.site }
    ensures to { traffic.new.to.items ≡ traffic.old.to.items }
    ensures from { traffic.new.from.items ≡ traffic.old.from.items ++ option_to_list send }
{
    let Some(message) = send else {
        return Places::none();
    };
    let place = traffic.from.len() as u32;
    traffic.from.push_reserved(message);
    Places::one(Place {
        site: traffic.site,
        place,
    })
}

/// A site is told what a command asks of it. The record that it adds is marked, the message that it sends is put behind those that it sent,
/// and the line behind the others, where there is room. Room for the rest is made before.
pub(crate) fn tell_seat<D: Disk>(
    dbms: &mut LocalDbms<AnyEngine>,
    marks: &mut Marks,
    traffic: &mut Traffic,
    lines: &mut Vec<Line>,
    alloc: Global,
    disk: &mut D,
    command: &Command,
    ask: SiteAsk,
) -> Result<(), StepErr>
    requires told { IsTrue D.tells }
    requires stood { Some_site (Dbms.Stands Engines.Stands D.tells dbms.old (D.seen disk.old)) (CanAsk ask) }
    requires few { length traffic.old.from.items < 2 ^ 32 }
    requires room { vec_len lines.old < vec_capacity lines.old }
    ensures served { OnOk result (AddsWhere lines.old.items lines.new.items command.now (ServesOn (Dbms.Stands Engines.Stands D.tells dbms.old (D.seen disk.old)) marks.old traffic.old (Dbms.Stands Engines.Stands D.tells dbms.new (D.seen disk.new)) marks.new traffic.new ask)) }
    ensures kept { OnErr result (lines.new.items ≡ lines.old.items) }
    ensures failed { IfErr result (FailsOn (Dbms.Stands Engines.Stands D.tells dbms.old (D.seen disk.old)) marks.old traffic.old (Dbms.Stands Engines.Stands D.tells dbms.new (D.seen disk.new)) marks.new traffic.new ask) }
    ensures cause { HasCauseOf StepErr.Disk (D.seen disk.old).faults (D.seen disk.new).faults result }
{
    let Ok(()) = make_room(&mut traffic.from, ask) else {
        return Err(StepErr::Memory);
    };
    let Ok(()) = marks.reserve() else {
        return Err(StepErr::Memory);
    };
    let before = dbms.core().records().len();
    let step = dbms.ask(alloc, disk, ask)?;
    marks.note_line(before, dbms.core().records());
    lines.push_reserved(Line {
        command: *command,
        answer: step.answer,
        sends: post(traffic, step.sends),
    });
    Ok(())
}
