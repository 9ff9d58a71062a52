//! The files of the system, of which one call on names fails.
use std::alloc::Allocator;
use std::cell::Cell;
use std::fs::{File, Files, Metadata, OpenOptions};
use std::io::{self, ErrorKind};

/// The calls on names, of which this one fails, counted from 1.
#[derive(Drop)]
pub struct FailingFiles<'a, R: Files<File = File>> {
    pub rt: &'a R,
    pub failing: u32,
    pub calls: Cell<u32>,
}

impl<R: Files<File = File>> FailingFiles<'_, R> {
    fn next_call(&self) -> io::Result<()> {
        let call = self.calls.get().saturating_add(1);
        self.calls.set(call);
        if call == self.failing {
            return Err(ErrorKind::Other.into());
        }
        Ok(())
    }
}

impl<R: Files<File = File>> Files for FailingFiles<'_, R> {
    type File = File;

    type Dir = R::Dir;

    fn open_file(&self, how: &OpenOptions, path: &str) -> io::Result<File> {
        self.next_call()?;
        self.rt.open_file(how, path)
    }

    fn open_dir(&self, path: &str) -> io::Result<R::Dir> {
        self.rt.open_dir(path)
    }

    fn metadata(&self, path: &str) -> io::Result<Metadata> {
        self.next_call()?;
        self.rt.metadata(path)
    }

    fn symlink_metadata(&self, path: &str) -> io::Result<Metadata> {
        self.next_call()?;
        self.rt.symlink_metadata(path)
    }

    fn copy(&self, from: &str, to: &str) -> io::Result<u64> {
        self.rt.copy(from, to)
    }

    fn rename(&self, from: &str, to: &str) -> io::Result<()> {
        self.next_call()?;
        self.rt.rename(from, to)
    }

    fn remove_file(&self, path: &str) -> io::Result<()> {
        self.next_call()?;
        self.rt.remove_file(path)
    }

    fn create_dir(&self, path: &str) -> io::Result<()> {
        self.rt.create_dir(path)
    }

    fn remove_dir(&self, path: &str) -> io::Result<()> {
        self.rt.remove_dir(path)
    }

    fn remove_dir_all<B: Allocator>(&self, alloc: B, path: &str) -> io::Result<()> {
        self.rt.remove_dir_all(alloc, path)
    }
}
