//! A file of the system that a journal lies in. Only this file of the crate calls the system.
ghost use Rattle.std.specs.Prelude.{◌≡◌, ◌≤◌, ◌<◌, false, IfOk, length};
ghost use Rattle.journal_disk.specs.Disk.{no_bytes};

use crate::counting::counted;
use crate::journal_file::JournalFile;
use journal_disk::Failed;
use std::fs::{self, File, Files, OpenOptions};
use std::io::{self, ErrorKind};
use std::os::fd::AsRawFd;
use std::os::unix::fs::{FileExt, MetadataExt};

/// The names of a journal's file, of the one that takes its place at a trim, and of their folder.
#[derive(Drop)]
pub struct Names<'a> {
    pub folder: &'a str,
    pub journal: String,
    pub next: String,
}

/// A file of the system, locked while it is open. It tells nothing of its bytes.
#[derive(Drop)]
pub struct SystemFile<'a, R: Files<File = File>> {
    rt: &'a R,
    names: Names<'a>,
    file: File,
    faults: u64,
}

impl<'a, R: Files<File = File>> SystemFile<'a, R> {
    /// The file of this name, made empty where there is none. It isn't opened where the name is that of something
    /// else, as of a link, a folder or a device, or where another handle has it open, of this process or of
    /// another.
    pub fn open(rt: &'a R, names: Names<'a>) -> io::Result<SystemFile<'a, R>> {
        let file = opened(rt, names.journal.as_str())?;
        Ok(SystemFile {
            rt,
            names,
            file,
            faults: 0,
        })
    }

    /// How many bytes it has.
    pub fn size(&self) -> io::Result<u64> {
        Ok(self.file.metadata()?.len())
    }

    /// Reads its first bytes, and syncs it and its name.
    pub fn read(&self, into: &mut [u8]) -> io::Result<()> {
        self.file.read_exact_at(into, 0)?;
        self.file.sync_all()?;
        self.sync_folder()
    }

    // Syncs the names in the folder.
    fn sync_folder(&self) -> io::Result<()> {
        File::open(self.rt, self.names.folder)?.sync_all()
    }

    // A file with these bytes, synced, under the name of the next one. It is locked, and has the permissions of
    // this one.
    fn next_with(&self, bytes: &[u8]) -> io::Result<File> {
        remove_if_there(self.rt, self.names.next.as_str())?;
        let file = above_streams(File::create_new(self.rt, self.names.next.as_str())?)?;
        self.fill(&file, bytes)?;
        Ok(file)
    }

    // Locks the next one, gives it the permissions of this one, and writes and syncs these bytes.
    fn fill(&self, next: &File, bytes: &[u8]) -> io::Result<()> {
        next.try_lock()?;
        next.set_permissions(self.file.metadata()?.permissions())?;
        next.write_all_at(bytes, 0)?;
        next.sync_all()
    }

    // Gives the next one the journal's name: whoever opens that finds the file of before or the next one.
    fn put_next(&self) -> io::Result<()> {
        fs::rename(
            self.rt,
            self.names.next.as_str(),
            self.names.journal.as_str(),
        )?;
        self.sync_folder()
    }

    // The file with these bytes that has taken the journal's name.
    fn renewed(&self, bytes: &[u8]) -> io::Result<File> {
        let next = self.next_with(bytes)?;
        self.put_next()?;
        Ok(next)
    }
}

// The file of this name, made empty where there is none, and locked.
fn opened<R: Files<File = File>>(rt: &R, name: &str) -> io::Result<File> {
    let file = above_streams(open_or_make(rt, name)?)?;
    lock(rt, &file, name)?;
    Ok(file)
}

// Locks a file, which is still the one of this name then. A trim by another process may have put one in its place
// before the lock was had.
fn lock<R: Files<File = File>>(rt: &R, file: &File, name: &str) -> io::Result<()> {
    file.try_lock()?;
    let (opened, named) = (file.metadata()?, fs::symlink_metadata(rt, name)?);
    if !named.is_file() || (opened.dev(), opened.ino()) != (named.dev(), named.ino()) {
        return Err(ErrorKind::Unsupported.into());
    }
    Ok(())
}

// Opens the file of this name, or makes it. What isn't a file is let alone: a link isn't followed, and no device is
// opened.
fn open_or_make<R: Files<File = File>>(rt: &R, name: &str) -> io::Result<File> {
    let mut options = OpenOptions::new();
    options.read(true).write(true);
    match options.create_new(true).open(rt, name) {
        Err(why) if why.kind() == ErrorKind::AlreadyExists => {
            if !fs::symlink_metadata(rt, name)?.is_file() {
                return Err(ErrorKind::Unsupported.into());
            }
            options.create_new(false).open(rt, name)
        }
        made => made,
    }
}

// What is meant for a standard stream that was closed must not land in a journal.
fn above_streams(file: File) -> io::Result<File> {
    if file.as_raw_fd() <= 2 {
        return file.try_clone();
    }
    Ok(file)
}

// Removes the file of this name, if there is one.
fn remove_if_there<R: Files>(rt: &R, name: &str) -> io::Result<()> {
    match fs::remove_file(rt, name) {
        Err(why) if why.kind() == ErrorKind::NotFound => Ok(()),
        other => other,
    }
}

// Writes some of the bytes at this place, at least one.
fn write_at(file: &File, place: u64, piece: &[u8]) -> io::Result<usize>
    ensures some { IfOk result (λ count. 0 < count) }
    ensures within { IfOk result (λ count. count ≤ length piece.now) }
{
    let count = file.write_at(piece, place)?;
    if count == 0 {
        return Err(ErrorKind::WriteZero.into());
    }
    Ok(count)
}

impl<'a, R: Files<File = File>> JournalFile for SystemFile<'a, R> {
    ghost tells = { false };

    ghost image = { λ _. no_bytes };

    ghost faults = { λ file. file.faults };

    fn write_some(&mut self, place: u64, piece: &[u8]) -> Result<usize, Failed> {
        counted(&mut self.faults, write_at(&self.file, place, piece))
    }

    fn sync(&mut self) -> Result<(), Failed> {
        counted(&mut self.faults, self.file.sync_all())
    }

    fn cut(&mut self, length: u64) -> Result<(), Failed> {
        counted(&mut self.faults, self.file.set_len(length))
    }

    // The next file is written beside it, and then takes its name.
    fn replace(&mut self, bytes: &[u8]) -> Result<(), Failed> {
        let made = self.renewed(bytes);
        self.file = counted(&mut self.faults, made)?;
        Ok(())
    }
}
