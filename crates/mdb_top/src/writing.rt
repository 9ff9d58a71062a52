//! Writes all of a text to a sink.
ghost use Rattle.std.specs.Prelude.{◌≡◌, ◌≤◌, ◌++◌, IsTrue, OnOk, OnErr};
ghost use Rattle.mdb_base.specs.Counts.{HasCause};
ghost use Rattle.mdb_top.specs.Streams.{WritesFront};

use crate::streams::Sink;
use journal_disk::Failed;

/// Puts all bytes, front by front.
pub fn put_all<K: Sink>(sink: &mut K, bytes: &[u8]) -> Result<(), Failed>
    ensures ok { OnOk result (IsTrue K.tells → K.written sink.new ≡ K.written sink.old ++ bytes.now) }
    ensures err { OnErr result (IsTrue K.tells → WritesFront (K.written sink.old) (K.written sink.new) bytes.now) }
    ensures cause { HasCause (K.faults sink.old) (K.faults sink.new) result }
{
    let mut place = 0;
    while place < bytes.len() {
        match sink.put(&bytes[place..]) {
            Ok(count) => place += count,
            Err(why) => return Err(why),
        }
    }
    Ok(())
}
