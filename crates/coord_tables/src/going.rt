//! What the beginning of an attempt changes of the tables.
ghost use Rattle.std.specs.Prelude.{◌≡◌, ◌++◌, ◌∷◌, [], None, map, IfOk, OnErr, OnOk};
ghost use Rattle.fed_rules.specs.Coord.{send_due};
ghost use Rattle.global_exec.specs.Live as live;
ghost use Rattle.protocol_table.specs.Attempts as table;
ghost use Rattle.coord_tables.specs.Attempts.{last_of};
ghost use Rattle.coord_tables.specs.Beginning.{ListTheSame};

use crate::messages::send_dues;
use crate::stages::Stage;
use crate::tables::Tables;
use fed_rules::Sends;
use global_exec::GlobalExec;
use mdb_base::{Memory, Program, Tid};
use presumptions::Participants;
use std::alloc::Global;

/// Adds an attempt that isn't carried out yet, and gives the messages of its first work. Without memory nothing is added.
fn submit(exec: &mut GlobalExec, alloc: Global, tid: Tid, program: Program) -> Result<Sends, Memory>
    requires { live.live_of tid exec.old ≡ None }
    ensures sends { IfOk result (λ sends. sends ≡ map (send_due tid) (live.all_due (live.submitted tid program))) }
    ensures exec { OnOk result (exec.new ≡ exec.old ++ live.submitted tid program ∷ []) }
    ensures kept { OnErr result (exec.new ≡ exec.old) }
{
    let dues = exec.submit(alloc, tid, program)?;
    match send_dues(alloc, tid, &dues) {
        Ok(sends) => Ok(sends),
        Err(Memory) => {
            exec.refuse(tid);
            Err(Memory)
        }
    }
}

impl Tables {
    /// Adds an attempt that isn't known, with the sites of its participants, and gives the messages of its first work. Without memory nothing
    /// is added.
    pub fn begin(
        &mut self,
        alloc: Global,
        stage: Stage,
        members: &Participants,
        program: Program,
    ) -> Result<Sends, Memory>
        requires known { table.known_of stage.tid self.old.known ≡ None }
        requires live { live.live_of stage.tid self.old.exec ≡ None }
        requires idle { last_of stage.tid.tx (map (λ stage. stage.tid) self.old.stages.listed) ≡ None }
        ensures sends { IfOk result (λ sends. sends ≡ map (send_due stage.tid) (live.all_due (live.submitted stage.tid program))) }
        ensures known { OnOk result (self.new.known ≡ self.old.known ++ table.submitted stage.tid members.now ∷ []) }
        ensures exec { OnOk result (self.new.exec ≡ self.old.exec ++ live.submitted stage.tid program ∷ []) }
        ensures stages { OnOk result (self.new.stages.listed ≡ self.old.stages.listed ++ stage ∷ []) }
        ensures committed { self.new.committed ≡ self.old.committed }
        ensures graph { self.new.graph ≡ self.old.graph }
        ensures kept { OnErr result (ListTheSame self.old self.new) }
    {
        self.stages.reserve()?;
        let sends = submit(&mut self.exec, alloc, stage.tid, program)?;
        match self.known.submit(alloc, stage.tid, members) {
            Ok(()) => {
                self.stages.add(stage);
                Ok(sends)
            }
            Err(Memory) => {
                self.exec.refuse(stage.tid);
                Err(Memory)
            }
        }
    }
}
