//! What an audit finds.

/// Why a printed line doesn't agree, the first reason that fits.
#[derive(Clone, Copy)]
pub enum What {
    /// It is no line of a session, or no line of a report stands here where one is due, or one more stands behind the
    /// last.
    Form,
    /// Its answer is another one than the rules give.
    Answer,
    /// The places of what it sent are others.
    Places,
    /// The edges that it names are no cycle of ticket edges through the refused attempt.
    Cycle,
    /// The lines end where something is live, in doubt or known, an actor is down or a trip armed.
    Open,
    /// The printed order is no merge of the site orders.
    Order,
    /// The reads of a member are due here, and another line stands there.
    Reads,
    /// The outcome of an attempt is due here, and another line stands there.
    Outcome,
    /// The line of the forgotten attempts is due here, and another one stands there.
    Forgotten,
    /// The table of a site is due here, and another line stands there.
    Table,
}

/// Whether a printed run agrees with its scenario, or the first line at which it doesn't, counted from 1.
#[derive(Clone, Copy)]
pub enum Verdict {
    Agrees,
    Differs { line: u32, what: What },
}
