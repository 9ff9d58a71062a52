//! The top call over stores: what it says where a disk isn't opened, and a session whose journals lie in a folder.
ghost use Rattle.std.specs.Prelude.{◌≡◌, [], IsTrue};

use super::{GIVEN, ROOM, TAKEN, USAGE, called, empty_disks};
use file_disks::{FileStore, MemStore, Store};
use mdb_base::{Memory, put_number};
use mdb_top::{Disk, MemDisk, MemSink, MemSource, NoGate, federate_store};
use std::alloc::Global;
use std::fs;
use std::sync::Wait;
use std::test::Fail;
use std::thread::Threads;

// The words of a text, cut at its spaces.
fn words_of(alloc: Global, text: &str) -> Result<Vec<String>, Memory> {
    let mut words = Vec::new(alloc);
    for word in text.split(' ') {
        words.push(String::from_str(alloc, word)?)?;
    }
    Ok(words)
}

// The status of these words on these bytes and this store, and what was put.
pub(super) fn stored<R: Threads + Wait + Sync + AllocGlobal, D: Disk + Send, T: Store<D>>(
    rt: &R,
    words: &str,
    input: &[u8],
    store: &mut T,
    disks: &mut Vec<D>,
) -> Result<(u8, Vec<u8>), Memory>
    requires told { IsTrue D.tells }
    requires empty { disks.old.items ≡ [] }
{
    let alloc = rt.alloc();
    let words = words_of(alloc, words)?;
    let nowhere = Vec::new(alloc);
    let never = Vec::new(alloc);
    let mut source = MemSource::new(Vec::from_slice(alloc, input)?, GIVEN, nowhere);
    let mut sink = MemSink::new(alloc, ROOM, TAKEN, never)?;
    let status = federate_store(
        rt,
        alloc,
        &words,
        &mut source,
        &mut sink,
        store,
        disks,
        &NoGate,
    );
    Ok((status, Vec::from_slice(alloc, sink.written())?))
}

// One committed local transaction at one site.
pub(super) const SESSION: &[u8] =
    b"site 1 locking nothing\nlocal 1 1 set:5:7\ncommands\nbegin 1\nstep 1\ncommit 1\n";

// What going on from its journals prints, where its site starts with this epoch.
pub(super) fn gone_on(alloc: Global, epoch: u8) -> Result<Vec<u8>, Memory> {
    let mut text = Vec::new(alloc);
    text.extend_from_slice(b"back 0 => up known 0\nback 1 => up epoch ")?;
    put_number(&mut text, u64::from(epoch))?;
    text.extend_from_slice(b" doubtful 0\nforgotten\ntable 1 5=7\nend\n")?;
    Ok(text)
}

// Words, the disk that has a byte, the call of the store that fails, the status, what is put, and how many disks
// are opened.
const CASES: [(&str, usize, u32, u8, &[u8], usize); 14] = [
    ("store", 9, 0, 1, USAGE, 0),
    ("store ", 9, 0, 1, USAGE, 0),
    ("store -x", 9, 0, 1, USAGE, 0),
    ("store x y", 9, 0, 1, USAGE, 0),
    ("replay", 9, 0, 1, USAGE, 0),
    ("store x", 9, 1, 5, b"disk 0 failed\n", 0),
    ("store x", 9, 2, 5, b"disk 1 failed\n", 1),
    ("store x", 9, 9, 5, b"disk 8 failed\n", 8),
    ("store x", 3, 0, 8, b"disk 3 is used\n", 9),
    ("resume", 9, 0, 1, USAGE, 0),
    ("resume ", 9, 0, 1, USAGE, 0),
    ("resume -x", 9, 0, 1, USAGE, 0),
    ("resume x y", 9, 0, 1, USAGE, 0),
    ("resume x", 9, 2, 5, b"disk 1 failed\n", 1),
];

// A store of nine disks, of which this one has a byte, and whose call of this number fails.
fn store_of(alloc: Global, used: usize, failing: u32) -> Option<MemStore> {
    let mut disks = empty_disks(alloc).ok()?;
    if let Some(disk) = disks.get_mut(used) {
        disk.reserve(alloc, 1).ok()?;
        disk.append(&[0]).ok()?;
    }
    let failing = Vec::from_slice(alloc, &[failing]).ok()?;
    if disks.len() != 9 {
        return None;
    }
    Some(MemStore::new(disks, failing))
}

#[test]
fn a_store_is_opened_or_says_why_not(rt: HostRuntime) -> Result<(), Fail> {
    let alloc = rt.alloc();
    for (words, used, failing, want, text, opened) in CASES {
        let mut store = store_of(alloc, used, failing).ok_or("no memory")?;
        let mut disks: Vec<MemDisk> = Vec::new(alloc);
        let (status, put) = stored(&rt, words, SESSION, &mut store, &mut disks)?;
        assert_eq!(rt; status, want, "{words}");
        assert_eq!(rt; put.as_slice(), text, "{words}");
        assert_eq!(rt; disks.len(), opened, "{words}");
    }
    Ok(())
}

#[test]
fn a_session_in_a_folder_is_that_of_replay(rt: HostRuntime) -> Result<(), Fail> {
    let alloc = rt.alloc();
    let folder = "stored_folder";
    let _ = fs::remove_dir_all(&rt, folder);
    let mut store = FileStore::new(alloc, &rt, folder);
    let mut disks = Vec::new(alloc);
    let none = stored(&rt, "store stored_folder", SESSION, &mut store, &mut disks)?;
    assert_eq!(rt; none.0, 5);
    assert_eq!(rt; none.1.as_slice(), b"disk 0 failed\n".as_slice());
    fs::create_dir(&rt, folder)?;
    let mut disks = Vec::new(alloc);
    let kept = stored(&rt, "store stored_folder", SESSION, &mut store, &mut disks)?;
    let mut memory = empty_disks(alloc)?;
    let plain = called(&rt, &["replay"], SESSION, (0, 0), &mut memory, &NoGate)?;
    assert_eq!(rt; kept.0, 0);
    assert_eq!(rt; kept.1.as_slice(), plain.1.as_slice());
    let mut journal = vec![in alloc; 0; memory[1].len() as usize]?;
    memory[1].read_at(0, &mut journal)?;
    assert_eq!(rt;
        fs::read(&rt, "stored_folder/disk1")?.as_slice(),
        journal.as_slice()
    );
    // The disks are open still, so the folder is locked; then it is used, and the session goes on.
    let mut others = Vec::new(alloc);
    let locked = stored(&rt, "store stored_folder", SESSION, &mut store, &mut others)?;
    assert_eq!(rt; locked.1.as_slice(), b"disk 0 failed\n".as_slice());
    drop(disks);
    let mut others = Vec::new(alloc);
    let used = stored(&rt, "store stored_folder", SESSION, &mut store, &mut others)?;
    assert_eq!(rt; used.0, 8);
    assert_eq!(rt; used.1.as_slice(), b"disk 1 is used\n".as_slice());
    drop(others);
    for epoch in [2_u8, 3] {
        let mut disks = Vec::new(alloc);
        let resumed = stored(&rt, "resume stored_folder", b"", &mut store, &mut disks)?;
        assert_eq!(rt; resumed.0, 0);
        assert_eq!(rt; resumed.1.as_slice(), gone_on(alloc, epoch)?.as_slice());
    }
    fs::remove_dir_all(&rt, folder)?;
    Ok(())
}
