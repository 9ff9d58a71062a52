//! What a client asks of the coordinator's host.
ghost use Rattle.std.specs.Prelude.{◌≡◌};
ghost use Rattle.fed_hosts.specs.CoordServing.{ask_of_call};
ghost use Rattle.fed_hosts.specs.CoordViews.{command_of_call};

use fed_rules::Command;
use global_manager::CoordAsk;
use mdb_base::{Tid, Tx};

/// What a client asks of a global transaction or of an attempt of one.
#[derive(Clone, Copy)]
pub(crate) enum CoordCall {
    Go(Tx),
    Fate(Tx),
    Again(Tid),
    Late(Tid),
}

/// The command that asks it.
pub(crate) fn command(call: CoordCall) -> Command
    ensures { result ≡ command_of_call call }
{
    match call {
        CoordCall::Go(tx) => Command::Go(tx),
        CoordCall::Fate(tx) => Command::Fate(tx),
        CoordCall::Again(tid) => Command::Again(tid),
        CoordCall::Late(tid) => Command::Late(tid),
    }
}

/// What it asks of the coordinator.
pub(crate) fn ask_of(call: CoordCall) -> CoordAsk
    ensures { result ≡ ask_of_call call }
{
    match call {
        CoordCall::Go(tx) => CoordAsk::Go(tx),
        CoordCall::Fate(tx) => CoordAsk::Fate(tx),
        CoordCall::Again(tid) => CoordAsk::Again(tid),
        CoordCall::Late(tid) => CoordAsk::Late(tid),
    }
}
