//! The lines of a session that goes on from disks, and what is reported of it.
ghost use Rattle.std.specs.Prelude.{IsTrue};
ghost use Rattle.mdb_base.specs.Words.{Each};
ghost use Rattle.line_text.specs.Fits.{line_fits};
ghost use Rattle.fed_world.specs.Worlds.{EachStory, Recalls, SomeStory};
ghost use Rattle.outputs.specs.Outputs.{IfWhole};
ghost use Rattle.resume_output.specs.Resumes.{IsPrintedBehind, IsResumed};

use fed_world::World;
use mdb_base::Memory;
use outputs::{Output, put_lines};
use report_text::put_rest;
use std::alloc::Global;

/// The lines of a world at rest that goes on from disks, and behind them its report, without the order and the reads: nothing is known of
/// those of what committed before.
pub(crate) fn printed(alloc: Global, world: &World) -> Result<Output, Memory>
    requires stood { SomeStory (Recalls world.now) IsResumed }
    requires fit { Each (λ line. IsTrue (line_fits line)) world.now.lines.items }
    ensures { IfWhole result (λ text. EachStory (Recalls world.now) (λ session commands. IsResumed session commands → IsPrintedBehind text session commands)) }
{
    let mut out = Vec::new(alloc);
    put_lines(world.lines(), &mut out)?;
    let report = world.report(alloc)?;
    put_rest(&mut out, &report)?;
    Ok(Output::Whole(out))
}
