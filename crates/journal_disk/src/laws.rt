//! What holds of every disk and of every list of frames, whatever the calls were.
ghost use Rattle.std.specs.Prelude.{◌≡◌, ◌≤◌, ◌++◌, ℕ, List, length, take};
ghost use Rattle.journal_disk.specs.Disk.{Image, IsSound, MayLeave, stopped, kept_bytes};
ghost use Rattle.journal_disk.specs.Frames.{Frame, New, frame, frames, frame_bytes, digest_of, IsPayload, IsFrame, AreRight, AreWhole, IsDamagedBehind, whole_within};

/// A stop leaves a prefix that has at least the synced bytes, and any such prefix may be left, by some cut.
pub fn what_a_stop_leaves()
    ensures prefix { (image : Image) (cut : ℕ) → IsSound image → MayLeave image (stopped cut image).bytes }
    ensures each { (image : Image) (left : List ℕ) → MayLeave image left → (cut : ℕ) × ((stopped cut image).bytes ≡ left) }
    ensures synced { (image : Image) (cut : ℕ) → (stopped cut image).synced ≡ length (stopped cut image).bytes }
{}

/// A payload has one frame that is written, and no frame of either version begins another.
pub fn frames_are_apart()
    ensures one_payload { (a b : List ℕ) → IsPayload a → IsPayload b → frame a ≡ frame b → a ≡ b }
    ensures none_begins_another { (a b : Frame) (x y : List ℕ) → IsFrame a → IsFrame b → frame_bytes a ++ x ≡ frame_bytes b ++ y → (a ≡ b) × (x ≡ y) }
{}

/// Bytes have one list of whole frames, and each stop leaves the whole frames that end within the bytes that stay.
pub fn whole_frames_survive()
    ensures one_reading { (bytes : List ℕ) (a b : List Frame) → AreWhole bytes a → AreWhole bytes b → a ≡ b }
    ensures survive { (image : Image) (found : List Frame) (cut : ℕ) → AreWhole image.bytes found
        → AreWhole (stopped cut image).bytes (whole_within (kept_bytes cut image) found) }
    ensures front { (n : ℕ) (found : List Frame) → whole_within n found ≡ take (length (whole_within n found)) found }
{}

/// Bytes with a damaged frame have no other reading, and the frame stands behind one list of frames. Where bytes of the payload or of the digest of a whole
/// frame were changed, and no others, it is damaged, unless the digest that then stands there is that of its length and payload.
pub fn damage_is_seen()
    ensures no_other { (bytes : List ℕ) (found before : List Frame) → AreWhole bytes found → IsDamagedBehind bytes before → ⊥ }
    ensures one_place { (bytes : List ℕ) (a b : List Frame) → IsDamagedBehind bytes a → IsDamagedBehind bytes b → a ≡ b }
    ensures changed { (before : List Frame) (payload changed digest rest : List ℕ) → AreRight before → IsPayload payload → length changed ≡ length payload → length digest ≡ 32
        → (digest ≡ digest_of changed → ⊥) → IsDamagedBehind (frames before ++ (frame_bytes (New changed digest) ++ rest)) before }
{}
