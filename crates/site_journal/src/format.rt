//! The format of a site's records.
ghost use Rattle.std.specs.Prelude.{◌≡◌, ◌≤◌, ◌+◌, ◌++◌, List, length, Some, None, IfOk, IsErrOf};
ghost use Rattle.fed_rules.specs.SiteRecords.{site_frame};
ghost use Rattle.site_journal.specs.Exact.{spelled_is_read};
ghost use Rattle.site_journal.specs.Frames.{IsCheckpoint, frame_has_size};
ghost use Rattle.site_journal.specs.Spelling.{spelling, reading, IsRecord, InRange};

use crate::decoding::record_of;
use crate::encoding::{payload_len, put_record};
use byte_numbers::DecodeErr;
use fed_rules::SiteRecord;
use frame_journal::Format;
use std::alloc::Global;

/// The format of a site's records.
#[derive(Drop)]
pub struct SiteFormat;

impl Format<SiteRecord> for SiteFormat {
    ghost spelling = { spelling };

    ghost reading = { reading };

    ghost in_range = { InRange };

    ghost is_record = { IsRecord };

    ghost is_checkpoint = { IsCheckpoint };

    ghost frame_bytes = { site_frame };

    ghost spelled_is_read = { spelled_is_read };

    ghost counts_frames = { frame_has_size };

    fn payload_len(entry: &SiteRecord) -> usize {
        payload_len(entry)
    }

    fn encode(entry: &SiteRecord, out: &mut Vec<u8>) {
        put_record(entry, out);
    }

    fn decode(alloc: Global, payload: &[u8]) -> Result<SiteRecord, DecodeErr> {
        record_of(alloc, payload)
    }
}
