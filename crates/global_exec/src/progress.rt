//! How far an attempt has come at a participant.
ghost use Rattle.std.specs.Prelude.{◌≡◌, ◌≤◌, ◌==◌, cond, length, take, drop, List};
ghost use Rattle.mdb_base.specs.Programs.{reads_of};
ghost use Rattle.fed_rules.specs.Coord as coord;
ghost use Rattle.fed_rules.specs.CoordPast as past;
ghost use Rattle.global_exec.specs.Due as spec;
ghost use Rattle.global_exec.specs.Counted as counted;

use fed_rules::Due;
use mdb_base::{Next, PlainAct, Program, Reply, SiteId, Step, Why, next_act};

/// A participant of an attempt: the epoch of the replies that counted from it, 0 before the first; how many of them there were but
/// for waits; and whether its ticket and its yes vote counted.
#[derive(Clone, Copy, Debug, PartialEq, Eq)]
pub struct Progress {
    pub site: SiteId,
    pub epoch: u32,
    pub n: u8,
    pub ticket: bool,
    pub voted: bool,
}

/// Whether one of the steps is at the site.
pub fn visits(steps: &[Step], site: SiteId) -> bool
    ensures { result ≡ past.visits site steps.now }
{
    steps.iter().any(|step| step.site == site)
}

/// Whether an act can have the reply.
fn fits_act(act: PlainAct, reply: Reply) -> bool
    ensures { result ≡ coord.fits_act act reply }
{
    match reply {
        Reply::Wait { .. } | Reply::Unknown => true,
        Reply::Refused(why) => matches!(why, Why::Die { .. } | Why::Late { .. }),
        Reply::Value(_) => matches!(act, PlainAct::Read(_)),
        Reply::Done => matches!(act, PlainAct::Write(..)),
        Reply::Ticket(_) => false,
    }
}

/// Whether the taking of a ticket can have the reply.
fn fits_take(reply: Reply) -> bool
    ensures { result ≡ coord.fits_take reply }
{
    match reply {
        Reply::Wait { .. } | Reply::Unknown | Reply::Ticket(_) => true,
        Reply::Refused(why) => matches!(why, Why::Die { .. } | Why::Late { .. }),
        Reply::Value(_) | Reply::Done => false,
    }
}

/// Whether an operation with this count is outstanding and can have the reply.
pub fn fits(due: Option<Due>, n: u8, reply: Reply) -> bool
    ensures { result ≡ coord.fits due n reply }
{
    match due {
        Some(Due::Work { n: count, act, .. }) => n == count && fits_act(act, reply),
        Some(Due::Take { n: count, .. }) => n == count && fits_take(reply),
        Some(Due::Prepare { .. }) | None => false,
    }
}

/// Whether a Prepare is outstanding.
pub fn is_due_vote(due: Option<Due>) -> bool
    ensures { result ≡ coord.is_due_vote due }
{
    matches!(due, Some(Due::Prepare { .. }))
}

/// Whether a reply is a ticket.
pub fn is_ticket(reply: Reply) -> bool
    ensures { result ≡ past.is_ticket reply }
{
    matches!(reply, Reply::Ticket(_))
}

/// How many steps a reply answers: a ticket none, and a value or a write one.
pub fn steps_of(reply: Reply) -> usize
    ensures { result ≡ counted.steps_of reply }
{
    match reply {
        Reply::Ticket(_) => 0,
        _ => 1,
    }
}

impl Progress {
    /// A participant before its first reply.
    pub fn fresh(site: SiteId) -> Progress
        ensures { result ≡ spec.fresh site }
    {
        Progress {
            site,
            epoch: 0,
            n: 0,
            ticket: false,
            voted: false,
        }
    }

    /// The next step's work, where that step is here.
    pub(crate) fn work(&self, next: Option<Next>) -> Option<Due>
        ensures { result ≡ spec.work self.now next }
    {
        match next {
            Some(next) if next.site == self.site => Some(Due::Work {
                site: self.site,
                epoch: self.epoch,
                n: self.n,
                act: next.act,
            }),
            _ => None,
        }
    }

    /// What is outstanding here once all steps here are answered: the ticket, and the vote once the ticket is there.
    fn closing(&self) -> Option<Due>
        ensures { result ≡ cond self.now.ticket (spec.prepare self.now) (spec.take self.now) }
    {
        if !self.ticket {
            return Some(Due::Take {
                site: self.site,
                epoch: self.epoch,
                n: self.n,
            });
        }
        if self.voted {
            return None;
        }
        Some(Due::Prepare {
            site: self.site,
            epoch: self.epoch,
            n: self.n,
        })
    }

    /// What is outstanding here, once so many steps of the program gave these reads.
    pub fn due(&self, program: &Program, done: usize, reads: &[u64]) -> Option<Due>
        requires within { done ≤ length program.now }
        requires read { length reads.now ≡ reads_of (take done program.now) }
        ensures { result ≡ spec.due program.now done reads.now self.now }
    {
        if visits(&program.steps()[done..], self.site) {
            return self.work(next_act(program, done, reads));
        }
        self.closing()
    }

    /// What is outstanding here, where these steps are left and this is the first of them.
    pub(crate) fn due_left(&self, left: &[Step], next: Option<Next>) -> Option<Due>
        ensures { result ≡ spec.due_left left.now next self.now }
    {
        if visits(left, self.site) {
            return self.work(next);
        }
        self.closing()
    }

    /// Whether a reply of this epoch can be one of the participant: its epoch is the known one, or none is known.
    pub fn knows(&self, epoch: u32) -> bool
        ensures { result ≡ counted.knows self.now.epoch epoch }
    {
        self.epoch == 0 || epoch == self.epoch
    }

    /// One more reply, with this epoch.
    pub fn answered(self, epoch: u32, reply: Reply) -> Progress
        requires { counted.HasRoom self }
        ensures { result ≡ counted.answered epoch reply self }
    {
        Progress {
            epoch,
            n: self.n + 1,
            ticket: self.ticket || matches!(reply, Reply::Ticket(_)),
            ..self
        }
    }
}
