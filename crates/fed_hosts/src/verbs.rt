//! What a client asks of a local transaction.
ghost use Rattle.std.specs.Prelude.{◌≡◌, ◌≢◌, MatchBool};
ghost use Rattle.fed_hosts.specs.Verbs.{ask_of, command_of};

use fed_rules::Command;
use local_dbms::SiteAsk;
use mdb_base::Tx;

/// What a client asks of a local transaction.
#[derive(Clone, Copy)]
pub(crate) enum Verb {
    Begin,
    Step,
    Commit,
    Abort,
    Fate,
}

/// The command that asks it.
pub(crate) fn command(verb: Verb, tx: Tx) -> Command
    ensures { result ≡ command_of verb tx }
{
    match verb {
        Verb::Begin => Command::Begin(tx),
        Verb::Step => Command::Step(tx),
        Verb::Commit => Command::Commit(tx),
        Verb::Abort => Command::Abort(tx),
        Verb::Fate => Command::Fate(tx),
    }
}

/// What the local database system is asked then.
pub(crate) fn site_ask(verb: Verb, tx: Tx) -> SiteAsk
    ensures { result ≡ ask_of verb tx }
{
    match verb {
        Verb::Begin => SiteAsk::Begin(tx),
        Verb::Step => SiteAsk::Step(tx),
        Verb::Commit => SiteAsk::Commit(tx),
        Verb::Abort => SiteAsk::Abort(tx),
        Verb::Fate => SiteAsk::Fate(tx),
    }
}

/// Whether an attempt is to begin.
pub(crate) fn is_begin(verb: Verb) -> bool
    ensures { MatchBool result (verb ≡ Verb.Begin) (verb ≢ Verb.Begin) }
{
    match verb {
        Verb::Begin => true,
        Verb::Step => false,
        Verb::Commit => false,
        Verb::Abort => false,
        Verb::Fate => false,
    }
}
