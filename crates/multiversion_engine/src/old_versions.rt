//! The superseded versions of each key.
ghost use Rattle.std.specs.Prelude.{◌≡◌, ◌==◌, OnOk, OnErr, reverse};
ghost use Rattle.std.specs.FinMap.{empty, insert, remove};
ghost use Rattle.fed_rules.specs.Runs.{number};
ghost use Rattle.multiversion_engine.specs.OldVersions.{place_of, IsLastBelow, IsValueBelow, Prunes, AllRead, writes_key};

use crate::unended::Unended;
use mdb_base::{Key, Memory};
use run_book::{Granted, HeldRun};
use std::alloc::Global;
use std::collections::BTreeMap;
use std::marker::Model;

/// A key, and the number of the run that wrote a version of it. The version of the first rows has the number 0.
#[derive(Clone, Copy, Debug, PartialEq, Eq, PartialOrd, Ord)]
pub struct Place {
    pub key: u16,
    pub number: u64,
}

/// A version of a key: the number of the run that wrote it, and the value.
#[derive(Clone, Copy, Debug, PartialEq, Eq)]
pub struct OldVersion {
    pub number: u64,
    pub value: u64,
}

/// Versions of each key that an unended run may still read, seen as a finite map from keys and numbers to values. A look-up takes time
/// by the logarithm of their count.
#[derive(Drop)]
pub struct OldVersions {
    values: BTreeMap<Place, u64>,
}

impl Model for OldVersions {
    ghost use Rattle.std.specs.FinMap.{from_entries};
    ghost use Rattle.multiversion_engine.specs.OldVersions.{Olds, olds_code};

    ghost Value = { Olds };

    ghost coded = { olds_code };

    ghost view = { λ o. from_entries o.values.entries };
}

impl OldVersions {
    /// No version at all.
    pub fn new(alloc: Global) -> Self
        ensures { result ≡ empty }
    {
        OldVersions {
            values: BTreeMap::new(alloc),
        }
    }

    /// Notes a version of a key, which a run is about to supersede.
    pub fn note(&mut self, key: Key, version: OldVersion) -> Result<(), Memory>
        ensures noted { OnOk result (self.new ≡ insert self.old (place_of key version.number) version.value) }
        ensures memory { OnErr result (self.new ≡ self.old) }
    {
        let place = Place {
            key: key.0,
            number: version.number,
        };
        self.values.insert(place, version.value)?;
        Ok(())
    }

    /// The last version of the key below this number.
    fn last_below(&self, key: Key, number: u64) -> Option<OldVersion>
        ensures { IsLastBelow self.now key number result }
    {
        let first = Place {
            key: key.0,
            number: 0,
        };
        let places = first..Place { key: key.0, number };
        match self.values.range(places).next_back() {
            Some((place, value)) => Some(OldVersion {
                number: place.number,
                value: *value,
            }),
            None => None,
        }
    }

    /// The value of the last version of the key below this number, or 0.
    pub fn value_below(&self, key: Key, number: u64) -> u64
        ensures { IsValueBelow self.now key number result }
    {
        match self.last_below(key, number) {
            Some(version) => version.value,
            None => 0,
        }
    }

    /// This version is there no longer.
    fn forget(&mut self, key: Key, number: u64)
        ensures { self.new ≡ remove self.old (place_of key number) }
    {
        let place = Place { key: key.0, number };
        let _ = self.values.remove(&place);
    }

    /// Drops the versions of a key below this number that none of these runs reads: a run reads a version where its age is above the
    /// number of that one, and not above the next.
    fn drop_unread_of(&mut self, key: Key, number: u64, unended: &Unended)
        ensures pruned { Prunes unended.now (λ k. k == key.0) number self.old self.new }
        ensures read { AllRead unended.now (λ k. k == key.0) number self.new }
    {
        let mut next = number;
        while let Some(version) = self.last_below(key, next) {
            if !unended.any_within(version.number, next) {
                self.forget(key, version.number);
            }
            next = version.number;
        }
    }

    /// Drops of each key that a run of this number wrote the versions that none of these runs reads.
    fn drop_written(&mut self, accesses: &[Granted], number: u64, unended: &Unended)
        ensures pruned { Prunes unended.now (writes_key (reverse accesses.now)) number self.old self.new }
        ensures read { AllRead unended.now (writes_key (reverse accesses.now)) number self.new }
    {
        for access in accesses {
            if let Some(row) = access.written_row() {
                self.drop_unread_of(row.key, number, unended);
            }
        }
    }

    /// A run has committed: of each key that it wrote, the versions that none of these runs reads any more are dropped.
    pub fn drop_unread(&mut self, run: &HeldRun, unended: &Unended)
        ensures pruned { Prunes unended.now (writes_key run.now.run.acts) (number run.now.run) self.old self.new }
        ensures read { AllRead unended.now (writes_key run.now.run.acts) (number run.now.run) self.new }
    {
        self.drop_written(run.accesses(), run.number(), unended);
    }
}
