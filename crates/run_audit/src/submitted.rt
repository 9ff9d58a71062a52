//! A text that is handed in to be audited.
ghost use Rattle.std.specs.Prelude.{◌≡◌, ◌≤◌, IfOk, IsTrue, None, length, map};
ghost use Rattle.fed_rules.specs.Plans.{IsScenario};
ghost use Rattle.fed_world.specs.Faults.{CountsTell};
ghost use Rattle.audit_rules.specs.declared.verdict.Verdict.TheVariants.{Agrees};
ghost use Rattle.fed_world.specs.SettingUp.{AreEmpty};
ghost use Rattle.run_audit.specs.Audits.{Hands, IsShort, RunIsAudited, verdict_of};

use crate::lines::check_lines;
use audit_rules::{Verdict, What};
use audit_text::cut_printed;
use fed_rules::Scenario;
use fed_world::{World, WorldErr};
use federation_laws::federation_is_serializable;
use journal_disk::Disk;
use scenario_text::{TextErr, read_scenario};
use std::alloc::Global;

/// A scenario with the printed run behind it.
#[derive(Drop)]
pub struct Submitted<'a> {
    pub scenario: Scenario,
    /// How many lines stand before the line `printed`, or in all where it is missing.
    pub lines: u32,
    /// The text behind that line.
    pub printed: Option<&'a [u8]>,
}

/// The scenario that the lines of a text before its line `printed` spell, with what stands behind it. Where they spell none, the text is refused
/// with the first bad one.
pub fn submit(alloc: Global, text: &[u8]) -> Result<Submitted<'_>, TextErr>
    requires { length text.now ≤ 4194304 }
    ensures exact { Hands result text.now }
    ensures short { IfOk result IsShort }
{
    let cut = cut_printed(text);
    match read_scenario(alloc, cut.front) {
        Ok(scenario) => Ok(Submitted {
            scenario,
            lines: cut.lines,
            printed: cut.printed,
        }),
        Err(why) => Err(why),
    }
}

/// A scenario keeps what every scenario does.
fn every_scenario_is_one(scenario: &Scenario)
    ensures { IsScenario scenario.now }
{
    let _ = &scenario.sites;
}

impl Submitted<'_> {
    /// Whether the printed run agrees with the scenario, or the first line at which it doesn't, counted from 1 in the whole text, with the first
    /// reason that fits. It goes once over the text. The disks are used as a replay of the printed commands uses them. Where no line
    /// `printed` stands they aren't touched.
    pub fn audit<D: Disk>(self, alloc: Global, disks: &mut Vec<D>) -> Result<Verdict, WorldErr>
        requires told { IsTrue D.tells }
        requires nine { length disks.old.items ≡ 9 }
        requires empty { AreEmpty (map D.seen disks.old.items) }
        requires short { IsShort self }
        ensures exact { IfOk result (λ verdict. verdict ≡ verdict_of self.entry) }
        ensures headline { IfOk result (λ verdict. verdict ≡ Agrees → RunIsAudited self.entry.scenario self.entry.printed) }
        ensures untouched { self.entry.printed ≡ None → disks.new ≡ disks.old }
        ensures cause { CountsTell result (map D.seen disks.old.items) (map D.seen disks.new.items) }
        ensures count { length disks.new.items ≡ 9 }
    {
        let Submitted {
            scenario,
            lines,
            printed,
        } = self;
        federation_is_serializable();
        every_scenario_is_one(&scenario);
        let Some(text) = printed else {
            return Ok(Verdict::Differs {
                line: lines + 1,
                what: What::Form,
            });
        };
        let mut world = World::new(alloc, scenario, disks)?;
        check_lines(alloc, &mut world, disks, lines + 2, text)
    }
}
