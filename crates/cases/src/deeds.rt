//! What the first word of a header asks for.
use crate::wrong::Wrong;

/// What a section changes before the next run.
#[derive(Clone, Copy)]
pub(crate) enum Change {
    Case,
    Disk,
    Zeros,
    Fails,
    Stop,
    Replace,
    By,
}

/// What a section wants of the newest run.
#[derive(Clone, Copy)]
pub(crate) enum Want {
    Exit,
    Output,
    Begins,
    Has,
    Orders,
    Holds,
}

/// What a section asks for.
#[derive(Clone, Copy)]
pub(crate) enum Deed {
    Change(Change),
    Want(Want),
    Run,
    Audit,
    Again,
    Sweep,
}

const DEEDS: [(&str, Deed); 17] = [
    ("case", Deed::Change(Change::Case)),
    ("disk", Deed::Change(Change::Disk)),
    ("zeros", Deed::Change(Change::Zeros)),
    ("fails", Deed::Change(Change::Fails)),
    ("stop", Deed::Change(Change::Stop)),
    ("replace", Deed::Change(Change::Replace)),
    ("by", Deed::Change(Change::By)),
    ("exit", Deed::Want(Want::Exit)),
    ("output", Deed::Want(Want::Output)),
    ("begins", Deed::Want(Want::Begins)),
    ("has", Deed::Want(Want::Has)),
    ("orders", Deed::Want(Want::Orders)),
    ("holds", Deed::Want(Want::Holds)),
    ("run", Deed::Run),
    ("audit", Deed::Audit),
    ("again", Deed::Again),
    ("sweep", Deed::Sweep),
];

/// What the first word of a header asks for.
pub(crate) fn deed_of(word: &str) -> Result<Deed, Wrong> {
    for (name, deed) in DEEDS {
        if name == word {
            return Ok(deed);
        }
    }
    Err(Wrong::Header)
}

/// What fails or changes in a sweep.
#[derive(Clone, Copy)]
pub(crate) enum Swept {
    Source,
    Sink,
    Disk,
    Cuts,
    Bytes,
    Trips,
    Messages,
    Stops,
    Resumes,
}

const SWEPT: [(&str, Swept); 9] = [
    ("source", Swept::Source),
    ("sink", Swept::Sink),
    ("disk", Swept::Disk),
    ("cuts", Swept::Cuts),
    ("bytes", Swept::Bytes),
    ("trips", Swept::Trips),
    ("messages", Swept::Messages),
    ("stops", Swept::Stops),
    ("resumes", Swept::Resumes),
];

/// What the word of a sweep names.
pub(crate) fn swept_of(word: &str) -> Result<Swept, Wrong> {
    for (name, swept) in SWEPT {
        if name == word {
            return Ok(swept);
        }
    }
    Err(Wrong::Header)
}
