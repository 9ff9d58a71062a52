//! Where lines stand in a trace. Each law is the contract of a function that does nothing.
ghost use Rattle.trace_merge.specs.Laws.{EarlierStandsBefore, EachListSplits, DeliveriesFollow, OneTrace};

/// A line of a lesser stamp stands before.
pub fn earlier_lines_stand_before()
    ensures { EarlierStandsBefore }
{}

/// The lines of an actor stand in its order: those before some place of the trace, and behind them those behind it, are its list.
pub fn each_list_splits()
    ensures { EachListSplits }
{}

/// A delivery stands behind its sending, whatever `P` goes over the wire, since the line that takes a packet has a greater stamp
/// than the line that sent it (Lamport 1978).
pub fn deliveries_stand_behind_their_sendings<P>()
    ensures { DeliveriesFollow P }
{}

/// The lists determine their trace.
pub fn lists_have_one_trace()
    ensures { OneTrace }
{}
