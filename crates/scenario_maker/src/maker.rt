//! The scenario of a number.
ghost use Rattle.std.specs.Prelude.{◌≡◌, ◌≤◌, ◌++◌, IfOk, OnOk, OnErr};
ghost use Rattle.scenario_maker.specs.Made.{behind_sites, engine_of, made, made_items, made_rows, made_sites, made_transactions, protocol_of};

use crate::draws::Draws;
use crate::transfers::draw_transaction;
use fed_rules::{
    ItemLine, ItemLines, LinkLines, Scenario, SiteLine, SiteLines, StopLines, TxLines,
};
use mdb_base::{Engine, Key, Memory, Put, SiteId};
use presumptions::Protocol;
use std::alloc::Global;

/// How many rows a site begins with, and the value of each.
const ROWS: u16 = 10;

const VALUE: u64 = 100;

/// The scenario of this number: `sites` sites, 1 to 8, of the first three engines and any protocols, each with ten rows of 100; and
/// `transactions` transactions, 1 to 1,024, each of which takes 1 to 9 from one row and puts it into another, every second one between
/// sites where there are two or more. The same number makes the same scenario (this project's profile).
pub fn make(alloc: Global, number: u64, sites: u8, transactions: u32) -> Result<Scenario, Memory>
    requires some_sites { 1 ≤ sites }
    requires few_sites { sites ≤ 8 }
    requires some_transactions { 1 ≤ transactions }
    requires few_transactions { transactions ≤ 1024 }
    ensures { IfOk result (λ scenario. scenario ≡ made number sites transactions) }
{
    let mut draws = Draws { last: number };
    let lines = draw_sites(alloc, &mut draws, sites)?;
    let items = all_items(alloc, sites)?;
    let transactions = draw_transactions(alloc, &mut draws, sites, transactions)?;
    Ok(Scenario {
        sites: lines,
        items,
        transactions,
        clients: 4,
        turns: 1000,
        tries: 4,
        links: LinkLines::of(Vec::new(alloc)),
        stops: StopLines::of(Vec::new(alloc)),
        conservative: false,
    })
}

/// The engine of this number.
fn engine(number: u8) -> Engine
    ensures { result ≡ engine_of number }
{
    match number {
        0 => Engine::Locking,
        1 => Engine::Timestamp,
        _ => Engine::Validation,
    }
}

/// The protocol of this number.
fn protocol(number: u8) -> Protocol
    ensures { result ≡ protocol_of number }
{
    match number {
        0 => Protocol::Nothing,
        1 => Protocol::Abort,
        _ => Protocol::Commit,
    }
}

/// The sites, each with the engine and the protocol that it draws.
fn draw_sites(alloc: Global, draws: &mut Draws, sites: u8) -> Result<SiteLines, Memory>
    requires { sites ≤ 8 }
    ensures lines { IfOk result (λ lines. lines ≡ made_sites sites draws.old.last) }
    ensures last { OnOk result (draws.new.last ≡ behind_sites sites draws.old.last) }
{
    let mut lines = Vec::new(alloc);
    for made in 0..sites {
        let engine = engine(draws.draw(3));
        let protocol = protocol(draws.draw(3));
        lines.push(SiteLine {
            site: SiteId(made + 1),
            engine,
            protocol,
        })?;
    }
    Ok(SiteLines::of(lines))
}

/// The first rows of a site behind these.
fn add_rows(items: &mut Vec<ItemLine>, site: SiteId) -> Result<(), Memory>
    ensures { OnOk result (items.new.items ≡ items.old.items ++ made_rows 10 site.0) }
{
    for key in 0..ROWS {
        items.push(ItemLine {
            site,
            put: Put {
                key: Key(key),
                value: VALUE,
            },
        })?;
    }
    Ok(())
}

/// The first rows of all sites.
fn all_items(alloc: Global, sites: u8) -> Result<ItemLines, Memory>
    requires { sites ≤ 8 }
    ensures { IfOk result (λ items. items ≡ made_items sites) }
{
    let mut items = Vec::new(alloc);
    for made in 0..sites {
        add_rows(&mut items, SiteId(made + 1))?;
    }
    Ok(ItemLines::of(items))
}

/// The transactions.
fn draw_transactions(
    alloc: Global,
    draws: &mut Draws,
    sites: u8,
    transactions: u32,
) -> Result<TxLines, Memory>
    requires some { 1 ≤ sites }
    requires few { sites ≤ 8 }
    requires count { transactions ≤ 1024 }
    ensures { IfOk result (λ lines. lines ≡ made_transactions sites transactions draws.old.last) }
{
    let mut lines = Vec::new(alloc);
    for made in 0..transactions {
        lines.push(draw_transaction(alloc, draws, sites, made + 1)?)?;
    }
    Ok(TxLines::of(lines))
}
