//! An answer for the client beside the one that the host keeps.
ghost use Rattle.std.specs.Prelude.{◌≡◌};
ghost use Rattle.fed_rules.specs.Short.{IsShortAnswer};

use fed_rules::Answer;

/// The same answer again, without memory: it has no cycle in it.
pub(crate) fn again(answer: &Answer) -> Answer
    requires { IsShortAnswer answer.now }
    ensures { result ≡ answer.now }
{
    match answer.clone() {
        Ok(copy) => copy,
        Err(_) => unreachable!(),
    }
}
