//! The marks of a site: which records of local and of prepared transactions it keeps, with their serial numbers.
ghost use Rattle.std.specs.Prelude.{◌≡◌, ◌<◌, ◌++◌, [], OnOk, reverse, vec_len, vec_capacity};
ghost use Rattle.session_report.specs.Marks.{new_marks};

use fed_rules::SiteRecord;
use mdb_base::{Memory, SiteId, Tid};
use std::alloc::Global;

/// A Local or a Prepared record that a site keeps: its attempt and its serial number.
#[derive(Clone, Copy, Debug, PartialEq, Eq)]
pub struct Mark {
    pub tid: Tid,
    pub number: u64,
}

/// The marks of one site, the oldest first.
#[derive(Drop)]
pub struct Marks {
    pub site: SiteId,
    pub kept: Vec<Mark>,
}

impl Marks {
    /// No record is marked yet.
    pub fn new(alloc: Global, site: SiteId) -> Marks
        ensures site { result.site ≡ site }
        ensures none { result.kept.items ≡ [] }
    {
        Marks {
            site,
            kept: Vec::new(alloc),
        }
    }

    /// Makes room for one further mark. The marks stay.
    pub fn reserve(&mut self) -> Result<(), Memory>
        ensures room { OnOk result (vec_len self.new.kept < vec_capacity self.new.kept) }
        ensures site { self.new.site ≡ self.old.site }
        ensures marks { self.new.kept.items ≡ self.old.kept.items }
    {
        self.kept.reserve(1)?;
        Ok(())
    }

    /// Takes the marks over a line of the site: `before` records stood in its journal before the line, and these stand there behind it.
    /// Where there are more, and the last one is a Local or a Prepared record, it is marked. Such a record is forced, so it is never lost.
    pub fn note_line(&mut self, before: usize, records: &[SiteRecord])
        requires { vec_len self.old.kept < vec_capacity self.old.kept }
        ensures site { self.new.site ≡ self.old.site }
        ensures marks { self.new.kept.items ≡ self.old.kept.items ++ new_marks before (reverse records.now) }
    {
        let count = records.len();
        if count > before {
            match &records[count - 1] {
                SiteRecord::Local { tid, number, .. } | SiteRecord::Prepared { tid, number, .. } =>
                    {
                        self.kept.push_reserved(Mark {
                            tid: *tid,
                            number: *number,
                        });
                    }
                _ => {}
            }
        }
    }
}
