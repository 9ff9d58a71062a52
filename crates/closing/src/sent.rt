//! The messages that were sent last.
ghost use Rattle.std.specs.Prelude.{◌≡◌, IfOk, map};
ghost use Rattle.fed_rules.specs.Closing.{last_sends};
ghost use Rattle.fed_world.specs.Worlds.{EachStory, HasLines};
ghost use Rattle.closing.specs.Steps.{give_of, only_of, take_of};

use fed_rules::{Command, Place, Places};
use fed_world::World;
use mdb_base::Memory;
use std::alloc::Global;

/// These places again.
fn copied(alloc: Global, places: &[Place]) -> Result<Vec<Place>, Memory>
    ensures { IfOk result (λ copy. copy.items ≡ places.now) }
{
    Ok(places.to_vec(alloc)?)
}

/// The places of what the last line sent.
fn sent_last(world: &World) -> &[Place]
    ensures { EachStory (HasLines world.now) (λ session commands. result.now ≡ last_sends session commands) }
{
    let lines = world.lines();
    if lines.is_empty() {
        return &[];
    }
    lines[lines.len() - 1].sends.as_slice()
}

/// The only one of these places, where there is one alone.
fn only(places: &[Place]) -> Option<Place>
    ensures { result ≡ only_of places.now }
{
    match places {
        [place] => Some(*place),
        _ => None,
    }
}

/// The place of the message that the last line sent, where it sent one alone.
pub(crate) fn only_sent(world: &World) -> Option<Place>
    ensures { EachStory (HasLines world.now) (λ session commands. result ≡ only_of (last_sends session commands)) }
{
    only(sent_last(world))
}

/// These places again. Up to one takes no memory.
fn again(places: &Places) -> Result<Places, Memory>
    ensures { IfOk result (λ copy. copy ≡ places.now) }
{
    Ok(places.clone()?)
}

/// The places of what the last line sent again.
pub(crate) fn sent_again(world: &World) -> Result<Places, Memory>
    ensures { IfOk result (λ places. EachStory (HasLines world.now) (λ session commands. places ≡ last_sends session commands)) }
{
    let lines = world.lines();
    if lines.is_empty() {
        return Ok(Places::none());
    }
    again(&lines[lines.len() - 1].sends)
}

/// The places of what the last line sent, in memory of their own.
pub(crate) fn last_places(alloc: Global, world: &World) -> Result<Vec<Place>, Memory>
    ensures { IfOk result (λ places. EachStory (HasLines world.now) (λ session commands. places.items ≡ last_sends session commands)) }
{
    copied(alloc, sent_last(world))
}

/// The commands by which the messages at these places are given.
pub(crate) fn gives(alloc: Global, places: &[Place]) -> Result<Vec<Command>, Memory>
    ensures { IfOk result (λ commands. commands.items ≡ map give_of places.now) }
{
    Ok(
        places
            .iter()
            .map(|place| Command::Give {
                site: place.site,
                place: place.place,
            })
            .collect(alloc)?,
    )
}

/// The commands by which the messages at these places are taken.
pub(crate) fn takes(alloc: Global, places: &[Place]) -> Result<Vec<Command>, Memory>
    ensures { IfOk result (λ commands. commands.items ≡ map take_of places.now) }
{
    Ok(
        places
            .iter()
            .map(|place| Command::Take {
                site: place.site,
                place: place.place,
            })
            .collect(alloc)?,
    )
}
