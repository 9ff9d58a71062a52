//! A scenario: the sites with their first rows, the transactions, and what a run is given.
use crate::{ItemLines, LinkLines, SiteLines, StopLines, TxLines};
use mdb_base::{Engine, Fate, Program, Put, SiteId, Tx};
use presumptions::Protocol;
use std::marker::Model;

/// A site with its rule and its protocol.
#[derive(Clone, Copy)]
pub struct SiteLine {
    pub site: SiteId,
    pub engine: Engine,
    pub protocol: Protocol,
}

/// A first row of a site.
#[derive(Clone, Copy)]
pub struct ItemLine {
    pub site: SiteId,
    pub put: Put,
}

/// A transaction, local at its home or global where there is none.
#[derive(Drop)]
pub struct TxLine {
    pub tx: Tx,
    pub home: Option<SiteId>,
    pub program: Program,
}

/// The fate of one message of the channel to or from a site.
#[derive(Clone, Copy)]
pub struct LinkLine {
    pub to: bool,
    pub site: SiteId,
    pub place: u32,
    pub fate: Fate,
}

/// A scripted stop of an actor after so many disk calls, with its cut.
#[derive(Clone, Copy)]
pub struct StopLine {
    pub actor: u8,
    pub calls: u32,
    pub cut: u64,
}

/// A scenario. Each list stands in the order of its lines.
#[derive(Drop)]
pub struct Scenario {
    pub sites: SiteLines,
    pub items: ItemLines,
    pub transactions: TxLines,
    /// Clients of a threaded run, 1 to 16.
    pub clients: u8,
    /// Door calls of one client, 1 to 100,000.
    pub turns: u32,
    /// Waits or agains in a row before an attempt is given up, 1 to 16.
    pub tries: u8,
    pub links: LinkLines,
    pub stops: StopLines,
    /// Whether tickets are taken by the conservative method.
    pub conservative: bool,
}

impl Model for Scenario {
    ghost use Rattle.fed_rules.specs.Plans.{Plan, IsScenario};

    ghost Value = { Plan };

    ghost view = { λ z. record {
      sites = z.sites;
      items = z.items;
      transactions = z.transactions;
      clients = z.clients;
      turns = z.turns;
      tries = z.tries;
      links = z.links;
      stops = z.stops;
      conservative = z.conservative;
    } };

    ghost invariant = { λ z. IsScenario (record {
      sites = z.sites;
      items = z.items;
      transactions = z.transactions;
      clients = z.clients;
      turns = z.turns;
      tries = z.tries;
      links = z.links;
      stops = z.stops;
      conservative = z.conservative;
    }) };
}
