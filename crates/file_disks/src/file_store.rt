//! The journals in the files of a folder.
ghost use Rattle.std.specs.Prelude.{◌≡◌, ◌≤◌, ◌^◌, false, [], IfOk, length};
ghost use Rattle.mdb_base.specs.Counts.{HasCause, HasCauseOf};
ghost use Rattle.file_disks.specs.Stores.{IsNotLarge};

use crate::counting::counted;
use crate::errors::OpenErr;
use crate::file_disk::FileDisk;
use crate::store::{LONGEST_JOURNAL, Store};
use crate::system_file::{Names, SystemFile};
use std::alloc::{AllocError, Global};
use std::fs::{File, Files};

/// The journals in a folder, of which that of actor A is the file `diskA`, made empty where there is none. It tells
/// nothing of their bytes, and counts each opening that fails.
#[derive(Drop)]
pub struct FileStore<'a, R: Files<File = File>> {
    alloc: Global,
    rt: &'a R,
    folder: &'a str,
    faults: u64,
}

impl<'a, R: Files<File = File>> FileStore<'a, R> {
    /// The store of this folder, of which nothing is opened yet. The folder isn't made.
    pub fn new(alloc: Global, rt: &'a R, folder: &'a str) -> FileStore<'a, R>
        ensures { result.faults ≡ 0 }
    {
        FileStore {
            alloc,
            rt,
            folder,
            faults: 0,
        }
    }

    // The names of an actor's files.
    fn names(&self, number: u8) -> Result<Names<'a>, AllocError> {
        let folder = self.folder;
        Ok(Names {
            folder,
            journal: format!(in self.alloc; "{folder}/disk{number}")?,
            next: format!(in self.alloc; "{folder}/disk{number}.next")?,
        })
    }

    // The bytes of a journal, synced.
    fn bytes_of(&mut self, file: &SystemFile<'a, R>) -> Result<Vec<u8>, OpenErr>
        ensures not_large { IfOk result (λ bytes. IsNotLarge (length bytes.items)) }
        ensures cause { HasCauseOf OpenErr.Failed self.old.faults self.new.faults result }
    {
        let size = counted(&mut self.faults, file.size())?;
        if size > LONGEST_JOURNAL {
            return Err(OpenErr::Large);
        }
        let mut bytes = vec![in self.alloc; 0; size as usize]?;
        counted(&mut self.faults, file.read(&mut bytes))?;
        Ok(bytes)
    }
}

impl<'a, R: Files<File = File>> Store<FileDisk<SystemFile<'a, R>>> for FileStore<'a, R> {
    ghost tells = { false };

    ghost journals = { λ _. [] };

    ghost faults = { λ store. store.faults };

    fn open_disk(&mut self, number: u8) -> Result<FileDisk<SystemFile<'a, R>>, OpenErr> {
        let names = self.names(number)?;
        let file = counted(&mut self.faults, SystemFile::open(self.rt, names))?;
        match self.bytes_of(&file) {
            Ok(bytes) => Ok(FileDisk::new(file, bytes)),
            Err(why) => Err(why),
        }
    }
}
