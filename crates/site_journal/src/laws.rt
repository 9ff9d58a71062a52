//! The lengths of payloads and frames are those of the rules.
ghost use Rattle.std.specs.Prelude.{◌≡◌, length};
ghost use Rattle.fed_rules.specs.declared.records.SiteRecord.{SiteRecord};
ghost use Rattle.fed_rules.specs.SiteRecords.{site_frame, site_payload};
ghost use Rattle.frame_journal.specs.Journal.{written_size};
ghost use Rattle.site_journal.specs.Spelling.{spelling};

/// A record's payload has as many bytes as the rules count for it.
pub fn payloads_have_the_lengths_of_the_rules()
    ensures { (entry : SiteRecord) → length (spelling entry) ≡ site_payload entry }
{}

/// The frame of a record has as many bytes as the rules count for it: 36 more than its payload.
pub fn frames_have_the_lengths_of_the_rules()
    ensures { (entry : SiteRecord) → written_size spelling entry ≡ site_frame entry }
{}
