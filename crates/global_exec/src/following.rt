//! The step that a program goes on with behind an answer, whose value isn't among those that were read yet.
ghost use Rattle.std.specs.Prelude.{◌≡◌, ◌<◌, ◌≤◌, ◌++◌, IsTrue, length, slice_index, take};
ghost use Rattle.mdb_base.specs.Programs.{has_register, next_of, plain_act, reads_of};
ghost use Rattle.global_exec.specs.Counted as counted;

use mdb_base::{Act, Next, PlainAct, Program, Reply};

/// The value of a reply; 0 where it has none.
fn value_in(reply: Reply) -> u64
    ensures { result ≡ slice_index (counted.value_of reply) 0 }
{
    match reply {
        Reply::Value(value) => value,
        _ => 0,
    }
}

/// The value of a register, of those that were read and that of the reply behind them.
fn value_at(reads: &[u64], reply: Reply, register: usize) -> u64
    requires { register < length (reads.now ++ counted.value_of reply) }
    ensures { result ≡ slice_index (reads.now ++ counted.value_of reply) register }
{
    if register < reads.len() {
        return reads[register];
    }
    value_in(reply)
}

/// An act with its register filled in from the values that were read and that of the reply.
fn plain(act: Act, reads: &[u64], reply: Reply) -> PlainAct
    requires { IsTrue (has_register (length (reads.now ++ counted.value_of reply)) act) }
    ensures { result ≡ plain_act (reads.now ++ counted.value_of reply) act }
{
    match act {
        Act::Get(key) => PlainAct::Read(key),
        Act::Set(key, value) => PlainAct::Write(key, value),
        Act::Add {
            key,
            register,
            amount,
        } => {
            let value = value_at(reads, reply, register as usize);
            PlainAct::Write(key, value.wrapping_add(amount))
        }
    }
}

/// The step behind the first `done` ones, as a plain act at its site; these gave the values that were read and that of the reply. None
/// at the end of the program.
pub fn next_behind(program: &Program, done: usize, reads: &[u64], reply: Reply) -> Option<Next>
    requires within { done ≤ length program.now }
    requires read { length (reads.now ++ counted.value_of reply) ≡ reads_of (take done program.now) }
    ensures { result ≡ next_of program.now done (reads.now ++ counted.value_of reply) }
{
    let steps = program.steps();
    if done == steps.len() {
        return None;
    }
    let step = steps[done];
    Some(Next {
        site: step.site,
        act: plain(step.act, reads, reply),
    })
}
