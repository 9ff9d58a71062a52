//! What the steps of a program become, one after another.
ghost use Rattle.std.specs.Prelude.{◌≡◌, ◌≤◌, IsTrue, length, take};
ghost use Rattle.mdb_base.specs.Programs.{bad_register, has_register, next_of, plain_act, reads_of};

use crate::acts::{Act, PlainAct, Step};
use crate::program::{Next, Program};

/// The place of the first step whose register isn't below the number of reads before it.
pub(crate) fn first_bad_register(steps: &[Step]) -> Option<u8>
    requires { length steps.now ≤ 32 }
    ensures { result ≡ bad_register 0 0 steps.now }
{
    let mut reads: u8 = 0;
    for (place, step) in steps.iter().enumerate() {
        match step.act {
            Act::Get(_) => reads += 1,
            Act::Set(..) => {}
            Act::Add { register, .. } => {
                if register >= reads {
                    return Some(place as u8);
                }
            }
        }
    }
    None
}

/// An act with its register filled in from these values.
fn plain(act: Act, reads: &[u64]) -> PlainAct
    requires { IsTrue (has_register (length reads.now) act) }
    ensures { result ≡ plain_act reads.now act }
{
    match act {
        Act::Get(key) => PlainAct::Read(key),
        Act::Set(key, value) => PlainAct::Write(key, value),
        Act::Add {
            key,
            register,
            amount,
        } => PlainAct::Write(key, reads[register as usize].wrapping_add(amount)),
    }
}

/// The step behind the first `done` ones, as a plain act at its site; `reads` are the values that the reads among these gave.
/// None at the end of the program.
pub fn next_act(program: &Program, done: usize, reads: &[u64]) -> Option<Next>
    requires within { done ≤ length program.now }
    requires read { length reads.now ≡ reads_of (take done program.now) }
    ensures { result ≡ next_of program.now done reads.now }
{
    let steps = program.steps();
    if done == steps.len() {
        return None;
    }
    let step = steps[done];
    Some(Next {
        site: step.site,
        act: plain(step.act, reads),
    })
}
