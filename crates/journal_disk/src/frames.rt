//! Frames on a disk: two bytes of 0, the payload's length in two bytes, the highest first, the payload, and the digest of both.
ghost use Rattle.std.specs.Prelude.{◌≡◌, ◌≤◌, ◌<◌, ◌-◌, ◌+◌, ◌^◌, ◌↔◌, ℕ, length, drop, take, OnOk, OnErr, IsErrOf, IsTrue};
ghost use Rattle.sha2.specs.Sha256.{sha256};
ghost use Rattle.mdb_base.specs.Counts.{HasCauseOf};
ghost use Rattle.journal_disk.specs.Disk.{appended, AppendsSome, HasCalled};
ghost use Rattle.journal_disk.specs.Frames.{IsPayload, frame as frame_of};
ghost use Rattle.journal_disk.specs.Room.{payload_in};

use crate::disk::Disk;
use crate::errors::FrameErr;
use byteorder::{BigEndian, ByteOrder};
use sha2::{Digest, Sha256};

/// The most bytes of a payload.
pub const LONGEST_PAYLOAD: usize = 65_535;

/// How many bytes stand before the payload in a frame that is written.
pub const ROOM_BEFORE: usize = 4;

/// How many bytes stand behind it: a digest.
pub const ROOM_BEHIND: usize = 32;

/// How a frame is spelled. Only the second version is written.
#[derive(Clone, Copy, Debug, PartialEq, Eq)]
pub enum Version {
    /// The payload's length in two bytes, and the payload, of at least one byte.
    First,
    /// Two bytes of 0, the payload's length in two bytes, the payload, and their digest.
    Second,
}

/// The SHA-256 of these bytes of a frame: the two of the payload's length, and the payload.
pub(crate) fn digest_of(counted: &[u8]) -> [u8; 32]
    ensures { result ≡ sha256 counted.now }
{
    let mut hasher = Sha256::new();
    hasher.update(counted);
    hasher.finalize()
}

/// Appends a frame by one append. `frame` is four bytes of room, the payload and 32 bytes of room: the call writes two bytes of 0 and the
/// payload's length before the payload, and the digest behind it. It takes no memory. A frame that is too long leaves the disk as it was,
/// and a failed append leaves a prefix of the frame.
pub fn append_frame<D: Disk>(disk: &mut D, frame: &mut [u8]) -> Result<(), FrameErr>
    requires room { 36 ≤ length frame.old }
    requires spare { length frame.old ≤ (D.seen disk.old).spare }
    ensures too_long { IsErrOf result FrameErr.TooLong ↔ (65535 < length (payload_in frame.old)) }
    ensures unchanged { IsErrOf result FrameErr.TooLong → (disk.new ≡ disk.old) × (frame.new ≡ frame.old) }
    ensures left { (IsErrOf result FrameErr.TooLong → ⊥) → frame.new ≡ frame_of (payload_in frame.old) }
    ensures ok { OnOk result (IsTrue D.tells → (D.seen disk.new).image ≡ appended (frame_of (payload_in frame.old)) (D.seen disk.old).image) }
    ensures failed { IsErrOf result FrameErr.Failed → IsTrue D.tells → AppendsSome (frame_of (payload_in frame.old)) (D.seen disk.old).image (D.seen disk.new).image }
    ensures spare { (D.seen disk.old).spare ≤ (D.seen disk.new).spare + length frame.old }
    ensures size { OnOk result ((D.seen disk.new).size ≡ (D.seen disk.old).size + length frame.old) }
    ensures grows { (D.seen disk.old).size ≤ (D.seen disk.new).size }
    ensures called { (IsErrOf result FrameErr.TooLong → ⊥) → HasCalled 1 (D.seen disk.old) (D.seen disk.new) }
    ensures cause { HasCauseOf FrameErr.Failed (D.seen disk.old).faults (D.seen disk.new).faults result }
{
    let length = frame.len() - (ROOM_BEFORE + ROOM_BEHIND);
    if length > LONGEST_PAYLOAD {
        return Err(FrameErr::TooLong);
    }
    fill_in(frame);
    disk.append(frame)?;
    Ok(())
}

// Writes what stands before the payload and behind it.
fn fill_in(frame: &mut [u8])
    requires room { 36 ≤ length frame.old }
    requires short { IsPayload (payload_in frame.old) }
    ensures { frame.new ≡ frame_of (payload_in frame.old) }
{
    let end = frame.len() - ROOM_BEHIND;
    let mut head = [0; 4];
    BigEndian::write_u16(&mut head[2..], (end - ROOM_BEFORE) as u16);
    frame[..ROOM_BEFORE].copy_from_slice(&head);
    let digest = digest_of(&frame[2..end]);
    frame[end..].copy_from_slice(&digest);
}
