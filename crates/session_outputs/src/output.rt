//! What is to be put of a session that is at rest: its lines and its report.
ghost use Rattle.fed_world.specs.FreshWorlds.{Recalls};
ghost use Rattle.fed_world.specs.Worlds.{EachStory, SomeStory};
ghost use Rattle.outputs.specs.Outputs.{IfWhole};
ghost use Rattle.session_outputs.specs.Plays.{IsPrintable, IsPrinted};

use fed_world::World;
use line_laws::right_lines_fit;
use mdb_base::Memory;
use outputs::{Output, put_lines};
use report_text::print_report;
use std::alloc::Global;

/// The lines of a world at rest, and behind them its report.
pub(crate) fn printed(alloc: Global, world: &World) -> Result<Output, Memory>
    requires { SomeStory (Recalls world.now) IsPrintable }
    ensures { IfWhole result (λ bytes. EachStory (Recalls world.now) (IsPrinted bytes)) }
{
    right_lines_fit();
    let mut out = Vec::new(alloc);
    put_lines(world.lines(), &mut out)?;
    let report = world.report(alloc)?;
    print_report(alloc, &report, &mut out)?;
    Ok(Output::Whole(out))
}
