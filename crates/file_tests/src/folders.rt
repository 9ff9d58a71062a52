//! Journals in the files of a folder of the system.
use crate::failing_files::FailingFiles;
use file_disks::{FileDisk, FileStore, JournalFile, OpenErr, Store};
use journal_disk::{Disk, Failed};
use std::alloc::Global;
use std::cell::Cell;
use std::fs::{self, File, Files};
use std::os::unix::fs::{PermissionsExt, symlink};
use std::test::Fail;

fn append<F: JournalFile>(
    alloc: Global,
    disk: &mut FileDisk<F>,
    piece: &[u8],
) -> Result<(), Failed> {
    match disk.reserve(alloc, piece.len() as u64) {
        Ok(()) => disk.append(piece),
        Err(_) => Err(Failed),
    }
}

// Whether the disk has exactly these bytes.
fn holds<F: JournalFile>(alloc: Global, disk: &mut FileDisk<F>, want: &[u8]) -> bool {
    let Ok(mut bytes) = vec![in alloc; 0; disk.len() as usize] else {
        return false;
    };
    disk.read_at(0, &mut bytes).is_ok() && bytes.as_slice() == want
}

// Syncs, and drops so many bytes at the front.
fn trim<F: JournalFile>(disk: &mut FileDisk<F>, place: u64) -> Result<(), Failed> {
    disk.sync()?;
    if place > disk.len() {
        return Err(Failed);
    }
    disk.trim_front(place)
}

// What a disk has that is opened, or why it isn't.
fn opened<R: Files<File = File>>(
    alloc: Global,
    rt: &R,
    folder: &str,
    number: u8,
) -> Result<Vec<u8>, OpenErr> {
    if number > 8 {
        return Err(OpenErr::Large);
    }
    let mut store = FileStore::new(alloc, rt, folder);
    let mut disk = store.open_disk(number)?;
    let mut bytes = vec![in alloc; 0; disk.len() as usize]?;
    disk.read_at(0, &mut bytes)?;
    Ok(bytes)
}

// A disk that can be moved into a thread.
fn moved<D: Disk + Send>(disk: D) -> D {
    disk
}

#[test]
fn a_folder_keeps_what_was_written(rt: HostRuntime) -> Result<(), Fail> {
    let alloc = rt.alloc();
    let folder = "kept_folder";
    let _ = fs::remove_dir_all(&rt, folder);
    let mut store = FileStore::new(alloc, &rt, folder);
    assert!(rt; matches!(store.open_disk(0), Err(OpenErr::Failed)));
    fs::create_dir(&rt, folder)?;
    let mut disk = moved(store.open_disk(3)?);
    assert_eq!(rt; disk.len(), 0);
    append(alloc, &mut disk, b"abcdefgh")?;
    assert_eq!(rt;
        fs::read(&rt, "kept_folder/disk3")?.as_slice(),
        b"abcdefgh".as_slice()
    );
    fs::set_permissions(&rt, "kept_folder/disk3", fs::Permissions::from_mode(0o600))?;
    fs::write(&rt, "kept_folder/disk3.next", b"left by a kill".as_slice())?;
    trim(&mut disk, 2)?;
    assert!(rt; holds(alloc, &mut disk, b"cdefgh"));
    append(alloc, &mut disk, b"ijk")?;
    assert_eq!(rt;
        fs::read(&rt, "kept_folder/disk3")?.as_slice(),
        b"cdefghijk".as_slice()
    );
    assert!(rt; !fs::exists(&rt, "kept_folder/disk3.next")?);
    assert_eq!(rt;
        fs::metadata(&rt, "kept_folder/disk3")?.permissions().mode() & 0o777,
        0o600
    );
    // It is open, and so is refused to another.
    assert_eq!(rt; opened(alloc, &rt, folder, 3), Err(OpenErr::Failed));
    disk.stop(1);
    drop(disk);
    assert_eq!(rt;
        opened(alloc, &rt, folder, 3)?.as_slice(),
        b"cdefghi".as_slice()
    );
    fs::remove_dir_all(&rt, folder)?;
    Ok(())
}

#[test]
fn links_folders_and_large_files_are_not_opened(rt: HostRuntime) -> Result<(), Fail> {
    let alloc = rt.alloc();
    let folder = "odd_folder";
    let _ = fs::remove_dir_all(&rt, folder);
    fs::create_dir(&rt, folder)?;
    symlink(&rt, "disk1", "odd_folder/disk0")?;
    assert_eq!(rt; opened(alloc, &rt, folder, 0), Err(OpenErr::Failed));
    // A link that leads nowhere makes no file where it leads.
    assert!(rt; !fs::exists(&rt, "odd_folder/disk1")?);
    fs::create_dir(&rt, "odd_folder/disk2")?;
    assert_eq!(rt; opened(alloc, &rt, folder, 2), Err(OpenErr::Failed));
    let file = File::create(&rt, "odd_folder/disk4")?;
    file.set_len(67_108_865)?;
    assert_eq!(rt; opened(alloc, &rt, folder, 4), Err(OpenErr::Large));
    assert_eq!(rt; file.metadata()?.len(), 67_108_865);
    fs::hard_link(&rt, "odd_folder/disk4", "odd_folder/disk5")?;
    let mut store = FileStore::new(alloc, &rt, folder);
    file.set_len(0)?;
    let kept = store.open_disk(4)?;
    assert!(rt; matches!(store.open_disk(5), Err(OpenErr::Failed)));
    drop(kept);
    fs::remove_dir_all(&rt, folder)?;
    Ok(())
}

// The last call on names of an opening, and of a trim behind it but for the one that syncs the folder.
const OPENING: u32 = 5;

const TRIMMING: u32 = 8;

#[test]
fn each_failed_call_on_names_leaves_the_old_bytes_or_the_new(rt: HostRuntime) -> Result<(), Fail> {
    let alloc = rt.alloc();
    let folder = "names_folder";
    let _ = fs::remove_dir_all(&rt, folder);
    fs::create_dir(&rt, folder)?;
    for failing in 1..=TRIMMING + 2 {
        fs::write(&rt, "names_folder/disk1", b"abcdef".as_slice())?;
        let files = FailingFiles {
            rt: &rt,
            failing,
            calls: Cell::new(0),
        };
        let mut store = FileStore::new(alloc, &files, folder);
        match store.open_disk(1) {
            Err(why) => {
                assert_eq!(rt; why, OpenErr::Failed);
                assert!(rt; failing <= OPENING, "call {failing}");
            }
            Ok(mut disk) => {
                assert!(rt; failing > OPENING, "call {failing}");
                let goes = failing > TRIMMING + 1;
                assert_eq!(rt; trim(&mut disk, 2).is_ok(), goes, "call {failing}");
                assert_eq!(rt;
                    append(alloc, &mut disk, b"g").is_ok(),
                    goes,
                    "call {failing}"
                );
            }
        }
        let kept = opened(alloc, &rt, folder, 1)?;
        let want = match failing {
            10 => b"cdefg".as_slice(),
            9 => b"cdef".as_slice(),
            _ => b"abcdef".as_slice(),
        };
        assert_eq!(rt; kept.as_slice(), want, "call {failing}");
    }
    fs::remove_dir_all(&rt, folder)?;
    Ok(())
}
