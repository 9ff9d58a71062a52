//! What a command says.
ghost use Rattle.std.specs.Prelude.{◌≡◌};
ghost use Rattle.scenario_text.specs.CommandLines as spells;
ghost use Rattle.scenario_text.specs.Pieces.{words_of};

use crate::bad::BadWhy;
use crate::draft::SiteDraft;
use crate::names::{number_in, tid_of, tx_of};
use crate::pieces::{first_word, four_pieces, three_pieces, two_pieces};
use fed_rules::Command;
use mdb_base::{SiteId, Tid, Tx};

/// The transaction of a line `WORD T`.
#[tactic(auto, unfolding(crate::specs::CommandLines::tx_argument))]
fn tx_argument(line: &[u8]) -> Result<Tx, BadWhy>
    ensures { result ≡ spells.tx_argument (words_of line.now) }
{
    let (_, tx) = two_pieces(line, b' ').ok_or(BadWhy::Count)?;
    tx_of(tx)
}

/// The attempt of a line `WORD T.A`.
#[tactic(auto, unfolding(crate::specs::CommandLines::tid_argument))]
fn tid_argument(line: &[u8]) -> Result<Tid, BadWhy>
    ensures { result ≡ spells.tid_argument (words_of line.now) }
{
    let (_, tid) = two_pieces(line, b' ').ok_or(BadWhy::Count)?;
    tid_of(tid)
}

/// The site and the message of a line `WORD S I`.
#[tactic(auto, unfolding(crate::specs::CommandLines::message_argument))]
fn message_argument(sites: &SiteDraft, line: &[u8]) -> Result<(SiteId, u32), BadWhy>
    ensures { result ≡ spells.message_argument sites.now (words_of line.now) }
{
    let (_, site, place) = three_pieces(line, b' ').ok_or(BadWhy::Count)?;
    let site = sites.site_of(site)?;
    let place = number_in(0, u64::from(u32::MAX), place)?;
    Ok((site, place as u32))
}

/// The site and the attempt of a line `WORD S T.A`.
#[tactic(auto, unfolding(crate::specs::CommandLines::attempt_argument))]
fn attempt_argument(sites: &SiteDraft, line: &[u8]) -> Result<(SiteId, Tid), BadWhy>
    ensures { result ≡ spells.attempt_argument sites.now (words_of line.now) }
{
    let (_, site, tid) = three_pieces(line, b' ').ok_or(BadWhy::Count)?;
    let site = sites.site_of(site)?;
    let tid = tid_of(tid)?;
    Ok((site, tid))
}

/// The actor of a line `WORD A`.
#[tactic(auto, unfolding(crate::specs::CommandLines::actor_argument))]
fn actor_argument(sites: &SiteDraft, line: &[u8]) -> Result<u8, BadWhy>
    ensures { result ≡ spells.actor_argument sites.now (words_of line.now) }
{
    let (_, actor) = two_pieces(line, b' ').ok_or(BadWhy::Count)?;
    sites.actor_of(actor)
}

/// `halt A B`.
#[tactic(auto, unfolding(crate::specs::CommandLines::halt_line))]
fn halt_line(sites: &SiteDraft, line: &[u8]) -> Result<Command, BadWhy>
    ensures { result ≡ spells.halt_line sites.now (words_of line.now) }
{
    let (_, actor, cut) = three_pieces(line, b' ').ok_or(BadWhy::Count)?;
    let actor = sites.actor_of(actor)?;
    let cut = number_in(0, 65_535, cut)?;
    Ok(Command::Halt { actor, cut })
}

/// `trip A C B`.
#[tactic(auto, unfolding(crate::specs::CommandLines::trip_line))]
fn trip_line(sites: &SiteDraft, line: &[u8]) -> Result<Command, BadWhy>
    ensures { result ≡ spells.trip_line sites.now (words_of line.now) }
{
    let (_, actor, calls, cut) = four_pieces(line, b' ').ok_or(BadWhy::Count)?;
    let actor = sites.actor_of(actor)?;
    let calls = number_in(0, 1_000, calls)? as u32;
    let cut = number_in(0, 65_535, cut)?;
    Ok(Command::Trip { actor, calls, cut })
}

/// What a command says about a site's messages or an actor, by its first word.
#[tactic(auto, unfolding(crate::specs::CommandLines::actor_command))]
fn actor_command(sites: &SiteDraft, line: &[u8]) -> Result<Command, BadWhy>
    ensures { result ≡ spells.actor_command sites.now (words_of line.now) }
{
    let first = first_word(line);
    if first == b"give".as_slice() {
        let (site, place) = message_argument(sites, line)?;
        Ok(Command::Give { site, place })
    } else if first == b"take".as_slice() {
        let (site, place) = message_argument(sites, line)?;
        Ok(Command::Take { site, place })
    } else if first == b"ask".as_slice() {
        let (site, tid) = attempt_argument(sites, line)?;
        Ok(Command::Ask { site, tid })
    } else if first == b"drop".as_slice() {
        let (site, tid) = attempt_argument(sites, line)?;
        Ok(Command::Drop { site, tid })
    } else if first == b"halt".as_slice() {
        halt_line(sites, line)
    } else if first == b"trip".as_slice() {
        trip_line(sites, line)
    } else if first == b"back".as_slice() {
        let actor = actor_argument(sites, line)?;
        Ok(Command::Back { actor })
    } else if first == b"check".as_slice() {
        let actor = actor_argument(sites, line)?;
        Ok(Command::Check { actor })
    } else {
        Err(BadWhy::Word)
    }
}

/// What a command says, by its first word.
#[tactic(auto, unfolding(crate::specs::CommandLines::command_line))]
pub fn command_line(sites: &SiteDraft, line: &[u8]) -> Result<Command, BadWhy>
    ensures { result ≡ spells.command_line sites.now (words_of line.now) }
{
    let first = first_word(line);
    if first == b"begin".as_slice() {
        Ok(Command::Begin(tx_argument(line)?))
    } else if first == b"step".as_slice() {
        Ok(Command::Step(tx_argument(line)?))
    } else if first == b"commit".as_slice() {
        Ok(Command::Commit(tx_argument(line)?))
    } else if first == b"abort".as_slice() {
        Ok(Command::Abort(tx_argument(line)?))
    } else if first == b"fate".as_slice() {
        Ok(Command::Fate(tx_argument(line)?))
    } else if first == b"go".as_slice() {
        Ok(Command::Go(tx_argument(line)?))
    } else if first == b"again".as_slice() {
        Ok(Command::Again(tid_argument(line)?))
    } else if first == b"late".as_slice() {
        Ok(Command::Late(tid_argument(line)?))
    } else {
        actor_command(sites, line)
    }
}
