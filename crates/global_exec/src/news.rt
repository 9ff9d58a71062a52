//! What becomes outstanding by an answer, told from the participants as they were.
ghost use Rattle.std.specs.Prelude.{◌≡◌, ◌++◌, option_to_list, IfOk, OnOk};
ghost use Rattle.mdb_base.specs.Rising.{IsRising};
ghost use Rattle.mdb_base.specs.Words.{Each, found};
ghost use Rattle.global_exec.specs.Counted as counted;
ghost use Rattle.global_exec.specs.Live.{site_number};

use crate::progress::{Progress, is_ticket};
use fed_rules::{Due, Dues};
use mdb_base::{Few, Memory, Next, Reply, SiteId, Step};
use std::alloc::Global;

/// Adds what is outstanding, if it is something.
pub fn put_some(alloc: Global, dues: &mut Few<Due>, due: Option<Due>) -> Result<(), Memory>
    ensures { OnOk result (dues.new ≡ dues.old ++ option_to_list due) }
{
    match due {
        Some(due) => dues.push(alloc, due),
        None => Ok(()),
    }
}

/// What becomes outstanding at a participant by an answer of the site, behind which these steps are left and this is the first of them.
fn news_at(
    progress: &Progress,
    left: &[Step],
    next: Option<Next>,
    site: SiteId,
    epoch: u32,
    reply: Reply,
) -> Option<Due>
    requires { counted.HasRoom progress.now }
    ensures { result ≡ counted.news_left site epoch reply left.now next progress.now }
{
    if progress.site == site {
        let answered = progress.answered(epoch, reply);
        return answered.due_left(left, next);
    }
    if is_ticket(reply) {
        return None;
    }
    progress.work(next)
}

/// What becomes outstanding at all participants by an answer of the site, behind which these steps are left and this is the first of them,
/// by rising site.
pub fn news(
    alloc: Global,
    left: &[Step],
    next: Option<Next>,
    sites: &[Progress],
    site: SiteId,
    epoch: u32,
    reply: Reply,
) -> Result<Dues, Memory>
    requires rising { IsRising site_number sites.now }
    requires room { Each counted.HasRoom sites.now }
    ensures { IfOk result (λ dues. dues ≡ found (counted.news_left site epoch reply left.now next) sites.now) }
{
    let mut dues = Few::none();
    for progress in sites {
        let due = news_at(progress, left, next, site, epoch, reply);
        put_some(alloc, &mut dues, due)?;
    }
    Ok(Dues::of_few(dues))
}
