//! The lengths of payloads and frames are those of the rules.
ghost use Rattle.std.specs.Prelude.{◌≡◌, length};
ghost use Rattle.fed_rules.specs.declared.records.CoordRecord.{CoordRecord};
ghost use Rattle.fed_rules.specs.CoordRecords.{coord_frame, coord_payload};
ghost use Rattle.frame_journal.specs.Journal.{written_size};
ghost use Rattle.coord_journal.specs.Spelling.{spelling};

/// A record's payload has as many bytes as the rules count for it.
pub fn payloads_have_the_lengths_of_the_rules()
    ensures { (entry : CoordRecord) → length (spelling entry) ≡ coord_payload entry }
{}

/// The frame of a record has as many bytes as the rules count for it: 36 more than its payload.
pub fn frames_have_the_lengths_of_the_rules()
    ensures { (entry : CoordRecord) → written_size spelling entry ≡ coord_frame entry }
{}
