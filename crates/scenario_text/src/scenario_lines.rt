//! What a line of a scenario says.
ghost use Rattle.std.specs.Prelude.{◌≡◌};
ghost use Rattle.scenario_text.specs.Pieces.{words_of};
ghost use Rattle.scenario_text.specs.Reads.{Gives};
ghost use Rattle.scenario_text.specs.ScenarioLines as spells;

use crate::bad::BadWhy;
use crate::draft::SiteDraft;
use crate::entry::Entry;
use crate::fault::Fault;
use crate::names::{
    engine_of, fate_of, key_of, number_in, policy_of, protocol_of, site_number, tx_of, value_of,
    way_of,
};
use crate::pieces::{cut, first_word, five_pieces, four_pieces, two_pieces};
use crate::steps::steps_of;
use fed_rules::{ItemLine, LinkLine, SiteLine, StopLine};
use mdb_base::Put;
use std::alloc::Global;

/// `site S ENGINE PROTOCOL`.
#[tactic(auto, unfolding(crate::specs::ScenarioLines::site_line))]
fn site_line(line: &[u8]) -> Result<Entry, BadWhy>
    ensures { result ≡ spells.site_line (words_of line.now) }
{
    let (_, site, engine, protocol) = four_pieces(line, b' ').ok_or(BadWhy::Count)?;
    let site = site_number(site)?;
    let engine = engine_of(engine)?;
    let protocol = protocol_of(protocol)?;
    Ok(Entry::Site(SiteLine {
        site,
        engine,
        protocol,
    }))
}

/// `item S K V`.
#[tactic(auto, unfolding(crate::specs::ScenarioLines::item_line))]
fn item_line(sites: &SiteDraft, line: &[u8]) -> Result<Entry, BadWhy>
    ensures { result ≡ spells.item_line sites.now (words_of line.now) }
{
    let (_, site, key, value) = four_pieces(line, b' ').ok_or(BadWhy::Count)?;
    let site = sites.site_of(site)?;
    let key = key_of(key)?;
    let value = value_of(value)?;
    Ok(Entry::Item(ItemLine {
        site,
        put: Put { key, value },
    }))
}

/// `local T S STEP ..`.
#[tactic(auto, unfolding(crate::specs::ScenarioLines::local_line))]
fn local_line(alloc: Global, sites: &SiteDraft, line: &[u8]) -> Result<Entry, Fault>
    ensures { Gives (λ e. e) result (spells.local_line sites.now (words_of line.now)) }
{
    let (_, rest) = cut(line, b' ').ok_or(BadWhy::Count)?;
    let (tx, rest) = cut(rest, b' ').ok_or(BadWhy::Count)?;
    let (home, words) = cut(rest, b' ').ok_or(BadWhy::Count)?;
    let tx = tx_of(tx)?;
    let home = sites.site_of(home)?;
    let steps = steps_of(alloc, sites, Some(home), words)?;
    Ok(Entry::Transaction {
        tx,
        home: Some(home),
        steps,
    })
}

/// `global T STEP ..`.
#[tactic(auto, unfolding(crate::specs::ScenarioLines::global_line))]
fn global_line(alloc: Global, sites: &SiteDraft, line: &[u8]) -> Result<Entry, Fault>
    ensures { Gives (λ e. e) result (spells.global_line sites.now (words_of line.now)) }
{
    let (_, rest) = cut(line, b' ').ok_or(BadWhy::Count)?;
    let (tx, words) = cut(rest, b' ').ok_or(BadWhy::Count)?;
    let tx = tx_of(tx)?;
    let steps = steps_of(alloc, sites, None, words)?;
    Ok(Entry::Transaction {
        tx,
        home: None,
        steps,
    })
}

/// `clients N`.
#[tactic(auto, unfolding(crate::specs::ScenarioLines::clients_line))]
fn clients_line(line: &[u8]) -> Result<Entry, BadWhy>
    ensures { result ≡ spells.clients_line (words_of line.now) }
{
    let (_, word) = two_pieces(line, b' ').ok_or(BadWhy::Count)?;
    let clients = number_in(1, 16, word)?;
    Ok(Entry::Clients(clients as u8))
}

/// `turns N`.
#[tactic(auto, unfolding(crate::specs::ScenarioLines::turns_line))]
fn turns_line(line: &[u8]) -> Result<Entry, BadWhy>
    ensures { result ≡ spells.turns_line (words_of line.now) }
{
    let (_, word) = two_pieces(line, b' ').ok_or(BadWhy::Count)?;
    let turns = number_in(1, 100_000, word)?;
    Ok(Entry::Turns(turns as u32))
}

/// `tries N`.
#[tactic(auto, unfolding(crate::specs::ScenarioLines::tries_line))]
fn tries_line(line: &[u8]) -> Result<Entry, BadWhy>
    ensures { result ≡ spells.tries_line (words_of line.now) }
{
    let (_, word) = two_pieces(line, b' ').ok_or(BadWhy::Count)?;
    let tries = number_in(1, 16, word)?;
    Ok(Entry::Tries(tries as u8))
}

/// `policy WORD`.
#[tactic(auto, unfolding(crate::specs::ScenarioLines::policy_line))]
fn policy_line(line: &[u8]) -> Result<Entry, BadWhy>
    ensures { result ≡ spells.policy_line (words_of line.now) }
{
    let (_, word) = two_pieces(line, b' ').ok_or(BadWhy::Count)?;
    let conservative = policy_of(word)?;
    Ok(Entry::Policy(conservative))
}

/// `link to S I FATE` and `link from S I FATE`.
#[tactic(auto, unfolding(crate::specs::ScenarioLines::link_line))]
fn link_line(sites: &SiteDraft, line: &[u8]) -> Result<Entry, BadWhy>
    ensures { result ≡ spells.link_line sites.now (words_of line.now) }
{
    let (_, way, site, place, fate) = five_pieces(line, b' ').ok_or(BadWhy::Count)?;
    let to = way_of(way)?;
    let site = sites.site_of(site)?;
    let place = number_in(0, 65_535, place)? as u32;
    let fate = fate_of(fate)?;
    Ok(Entry::Link(LinkLine {
        to,
        site,
        place,
        fate,
    }))
}

/// `stop A C B`.
#[tactic(auto, unfolding(crate::specs::ScenarioLines::stop_line))]
fn stop_line(sites: &SiteDraft, line: &[u8]) -> Result<Entry, BadWhy>
    ensures { result ≡ spells.stop_line sites.now (words_of line.now) }
{
    let (_, actor, calls, cut) = four_pieces(line, b' ').ok_or(BadWhy::Count)?;
    let actor = sites.actor_of(actor)?;
    let calls = number_in(1, 1_000, calls)? as u32;
    let cut = number_in(0, 65_535, cut)?;
    Ok(Entry::Stop(StopLine { actor, calls, cut }))
}

/// What was read, or the fault that the line has.
fn or_fault(read: Result<Entry, BadWhy>) -> Result<Entry, Fault>
    ensures { Gives (λ e. e) result read }
{
    match read {
        Ok(entry) => Ok(entry),
        Err(why) => Err(Fault::Bad(why)),
    }
}

/// What a line of a scenario says, by its first word.
#[tactic(auto, unfolding(crate::specs::ScenarioLines::scenario_line))]
pub fn scenario_line(alloc: Global, sites: &SiteDraft, line: &[u8]) -> Result<Entry, Fault>
    ensures { Gives (λ e. e) result (spells.scenario_line sites.now (words_of line.now)) }
{
    let first = first_word(line);
    if first == b"site".as_slice() {
        or_fault(site_line(line))
    } else if first == b"item".as_slice() {
        or_fault(item_line(sites, line))
    } else if first == b"local".as_slice() {
        local_line(alloc, sites, line)
    } else if first == b"global".as_slice() {
        global_line(alloc, sites, line)
    } else if first == b"clients".as_slice() {
        or_fault(clients_line(line))
    } else if first == b"turns".as_slice() {
        or_fault(turns_line(line))
    } else if first == b"tries".as_slice() {
        or_fault(tries_line(line))
    } else if first == b"policy".as_slice() {
        or_fault(policy_line(line))
    } else if first == b"link".as_slice() {
        or_fault(link_line(sites, line))
    } else if first == b"stop".as_slice() {
        or_fault(stop_line(sites, line))
    } else {
        Err(Fault::Bad(BadWhy::Word))
    }
}
