//! Reading the whole frames of a disk from its front.
ghost use Rattle.std.specs.Prelude.{◌≡◌, ◌≤◌, ◌<◌, ◌-◌, ◌+◌, ◌++◌, ◌^◌, ℕ, Some, [], length, drop, slice_get, IfOk, IfSome, OnOk, IfNone, IsErrOf, IsTrue, ◌↔◌};
ghost use Rattle.mdb_base.specs.Words.{map_some};
ghost use Rattle.mdb_base.specs.Counts.{HasCauseOf};
ghost use Rattle.journal_disk.specs.Disk.{TakesCalls, reads};
ghost use Rattle.journal_disk.specs.Frames.{digest_of as digest_of_payload, frame_bytes, frames_size, payload_of, version_of, AreRight, AreWhole, IsDamaged, IsFrame, IsFront, IsPartOfFrame, IsPayload, IsRight};
ghost use Rattle.journal_disk.specs.Spans.{frame_at, frames_at, piece, BeginsNew, IsCounted, IsWithin, Scans};

use crate::disk::Disk;
use crate::errors::DiskErr;
use crate::frames::{ROOM_BEFORE, ROOM_BEHIND, Version, digest_of};
use byte_numbers::u16_at;
use std::alloc::{AllocError, Global};
use std::marker::Model;

// Where a payload stands among the bytes, and where the next frame begins.
#[derive(Clone, Copy)]
struct Span {
    version: Version,
    start: usize,
    end: usize,
    next: usize,
}

// The whole frame at this place, right or not, if there is one.
fn span_at(bytes: &[u8], place: usize) -> Option<Span>
    requires { place ≤ length bytes.now }
    ensures within { IfSome result (IsWithin bytes.now) }
    ensures counted { IfSome result (IsCounted bytes.now) }
    ensures is_frame { IfSome result (λ span. IsFrame (frame_at bytes.now span)) }
    ensures parts { IfSome result (λ span. drop place bytes.now ≡ frame_bytes (frame_at bytes.now span) ++ drop span.next bytes.now) }
    ensures later { IfSome result (λ span. place < span.next) }
    ensures torn { IfNone result (IsPartOfFrame (drop place bytes.now)) }
{
    let (first, rest) = u16_at(&bytes[place..])?;
    if first == 0 {
        return new_span_at(bytes, place);
    }
    let count = first as usize;
    if rest.len() < count {
        return None;
    }
    let start = place + 2;
    Some(Span {
        version: Version::First,
        start,
        end: start + count,
        next: start + count,
    })
}

// The same where two bytes of 0 stand.
fn new_span_at(bytes: &[u8], place: usize) -> Option<Span>
    requires place { place + 2 ≤ length bytes.now }
    requires zeros { BeginsNew (drop place bytes.now) }
    ensures within { IfSome result (IsWithin bytes.now) }
    ensures counted { IfSome result (IsCounted bytes.now) }
    ensures is_frame { IfSome result (λ span. IsFrame (frame_at bytes.now span)) }
    ensures parts { IfSome result (λ span. drop place bytes.now ≡ frame_bytes (frame_at bytes.now span) ++ drop span.next bytes.now) }
    ensures later { IfSome result (λ span. place < span.next) }
    ensures torn { IfNone result (IsPartOfFrame (drop place bytes.now)) }
{
    let (count, rest) = u16_at(&bytes[place + 2..])?;
    let count = count as usize;
    if rest.len() < count + ROOM_BEHIND {
        return None;
    }
    let start = place + ROOM_BEFORE;
    Some(Span {
        version: Version::Second,
        start,
        end: start + count,
        next: start + count + ROOM_BEHIND,
    })
}

// The digest that the frame of this span should have, of version 2.
fn digest_at(bytes: &[u8], span: Span) -> [u8; 32]
    requires within { IsWithin bytes.now span }
    requires counted { IsCounted bytes.now span }
    ensures { result ≡ digest_of_payload (piece bytes.now span) }
{
    digest_of(&bytes[span.start - 2..span.end])
}

// Whether the frame of this span is right.
fn is_right(bytes: &[u8], span: Span) -> bool
    requires within { IsWithin bytes.now span }
    requires counted { IsCounted bytes.now span }
    requires is_frame { IsFrame (frame_at bytes.now span) }
    ensures { IsTrue result ↔ IsRight (frame_at bytes.now span) }
{
    match span.version {
        Version::First => true,
        Version::Second => {
            let digest = digest_at(bytes, span);
            digest.as_slice() == &bytes[span.end..span.next]
        }
    }
}

// The whole frames from the front that are right, where they end, and whether a damaged one stands there.
#[derive(Drop)]
struct Front {
    spans: Vec<Span>,
    whole: usize,
    is_damaged: bool,
}

fn scan(alloc: Global, bytes: &[u8]) -> Result<Front, AllocError>
    ensures scans { IfOk result (λ front. Scans bytes.now front.spans.items front.whole) }
    ensures front { IfOk result (λ front. IsFront bytes.now (frames_at bytes.now front.spans.items) front.is_damaged) }
{
    let mut spans = Vec::new(alloc);
    let mut whole = 0;
    while let Some(span) = span_at(bytes, whole) {
        if !is_right(bytes, span) {
            return Ok(Front {
                spans,
                whole,
                is_damaged: true,
            });
        }
        spans.push(span)?;
        whole = span.next;
    }
    Ok(Front {
        spans,
        whole,
        is_damaged: false,
    })
}

/// The whole frames of a disk from its front, which contracts see as a list of frames, each with its payload.
#[derive(Drop)]
pub struct Frames {
    bytes: Vec<u8>,
    spans: Vec<Span>,
    whole: usize,
}

impl Model for Frames {
    ghost use Rattle.std.specs.Prelude.{ℕ, List};
    ghost use Rattle.journal_disk.specs.Frames.{Frame};
    ghost use Rattle.journal_disk.specs.Spans.{frames_at, Scans};

    ghost Value = { List Frame };

    ghost view = { λ f. frames_at f.bytes.items f.spans.items };

    ghost invariant = { λ f. Scans f.bytes.items f.spans.items f.whole };
}

impl Frames {
    /// Reads the whole frames from the front. What follows the last one is a proper prefix of one frame. Damaged comes exactly where, behind
    /// whole frames that are right, stands a whole one with another digest, and names its place. The disk isn't changed. It is read
    /// once, and an empty one isn't read.
    pub fn read<D: Disk>(alloc: Global, disk: &mut D) -> Result<Frames, DiskErr>
        ensures found { IfOk result (λ found. IsTrue D.tells → AreWhole (D.seen disk.old).image.bytes found) }
        ensures within { IfOk result (λ found. frames_size found ≤ (D.seen disk.old).size) }
        ensures damaged { (at : ℕ) → IsErrOf result (DiskErr.Damaged at) → IsTrue D.tells → IsDamaged (D.seen disk.old).image.bytes at }
        ensures never_missed { OnOk result (IsTrue D.tells → (at : ℕ) → IsDamaged (D.seen disk.old).image.bytes at → ⊥) }
        ensures called { TakesCalls (reads (D.seen disk.old).size) (D.seen disk.old) (D.seen disk.new) result }
        ensures cause { HasCauseOf DiskErr.Failed (D.seen disk.old).faults (D.seen disk.new).faults result }
        ensures untouched { (D.seen disk.old).size ≡ 0 → disk.new ≡ disk.old }
        ensures image { IsTrue D.tells → (D.seen disk.new).image ≡ (D.seen disk.old).image }
        ensures size { (D.seen disk.new).size ≡ (D.seen disk.old).size }
        ensures spare { (D.seen disk.old).spare ≤ (D.seen disk.new).spare }
    {
        let (frames, is_damaged) = Frames::read_front(alloc, disk)?;
        if is_damaged {
            return Err(DiskErr::Damaged { at: frames.whole() });
        }
        Ok(frames)
    }

    /// Reads the whole frames from the front up to the first one that is damaged, and answers too whether there is one. The disk isn't
    /// changed. It is read once, and an empty one isn't read.
    pub fn read_front<D: Disk>(alloc: Global, disk: &mut D) -> Result<(Frames, bool), DiskErr>
        ensures front { IfOk result (λ found. IsTrue D.tells → IsFront (D.seen disk.old).image.bytes found.0 found.1) }
        ensures within { IfOk result (λ found. frames_size found.0 ≤ (D.seen disk.old).size) }
        ensures undamaged { (at : ℕ) → IsErrOf result (DiskErr.Damaged at) → ⊥ }
        ensures called { TakesCalls (reads (D.seen disk.old).size) (D.seen disk.old) (D.seen disk.new) result }
        ensures cause { HasCauseOf DiskErr.Failed (D.seen disk.old).faults (D.seen disk.new).faults result }
        ensures untouched { (D.seen disk.old).size ≡ 0 → disk.new ≡ disk.old }
        ensures image { IsTrue D.tells → (D.seen disk.new).image ≡ (D.seen disk.old).image }
        ensures size { (D.seen disk.new).size ≡ (D.seen disk.old).size }
        ensures spare { (D.seen disk.old).spare ≤ (D.seen disk.new).spare }
    {
        let bytes = read_all(alloc, disk)?;
        let front = scan(alloc, &bytes)?;
        let frames = Frames {
            bytes,
            spans: front.spans,
            whole: front.whole,
        };
        Ok((frames, front.is_damaged))
    }

    /// How many whole frames there are. Each of them is right.
    pub fn len(&self) -> usize
        ensures count { result ≡ length self.now }
        ensures right { AreRight self.now }
    {
        self.spans.len()
    }

    /// Whether there is no whole frame.
    pub fn is_empty(&self) -> bool
        ensures { IsTrue result ↔ (self.now ≡ []) }
    {
        self.spans.is_empty()
    }

    /// The payload of the frame at this place, counted from 0.
    pub fn at(&self, place: usize) -> &[u8]
        requires { place < length self.now }
        ensures payload { map_some payload_of (slice_get self.now place) ≡ Some result.now }
        ensures size { IsPayload result.now }
    {
        let span = self.spans[place];
        &self.bytes[span.start..span.end]
    }

    /// How the frame at this place is spelled.
    pub fn version(&self, place: usize) -> Version
        requires { place < length self.now }
        ensures { map_some version_of (slice_get self.now place) ≡ Some result }
    {
        self.spans[place].version
    }

    /// How many bytes the whole frames have.
    pub fn whole(&self) -> u64
        ensures { result ≡ frames_size self.now }
    {
        self.whole as u64
    }
}

// All bytes of the disk.
fn read_all<D: Disk>(alloc: Global, disk: &mut D) -> Result<Vec<u8>, DiskErr>
    ensures bytes { IfOk result (λ bytes. IsTrue D.tells → bytes.items ≡ (D.seen disk.old).image.bytes) }
    ensures count { IfOk result (λ bytes. length bytes.items ≡ (D.seen disk.old).size) }
    ensures undamaged { (at : ℕ) → IsErrOf result (DiskErr.Damaged at) → ⊥ }
    ensures called { TakesCalls (reads (D.seen disk.old).size) (D.seen disk.old) (D.seen disk.new) result }
    ensures cause { HasCauseOf DiskErr.Failed (D.seen disk.old).faults (D.seen disk.new).faults result }
    ensures untouched { (D.seen disk.old).size ≡ 0 → disk.new ≡ disk.old }
    ensures image { IsTrue D.tells → (D.seen disk.new).image ≡ (D.seen disk.old).image }
    ensures size { (D.seen disk.new).size ≡ (D.seen disk.old).size }
    ensures spare { (D.seen disk.old).spare ≤ (D.seen disk.new).spare }
{
    let mut bytes = vec![in alloc; 0; disk.len() as usize]?;
    if bytes.is_empty() {
        return Ok(bytes);
    }
    disk.read_at(0, &mut bytes)?;
    Ok(bytes)
}
