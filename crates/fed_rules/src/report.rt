//! What a finished session reports.
use crate::{AllReads, AllRows, Outcomes};
use mdb_base::{Tid, Tids, Values};
use presumptions::Decision;

/// The values that a committed transaction read, in program order.
#[derive(Drop)]
pub struct TxReads {
    pub tid: Tid,
    pub values: Values,
}

/// How a global attempt ended.
#[derive(Clone, Copy)]
pub struct Outcome {
    pub tid: Tid,
    pub decision: Decision,
}

/// The serial order with its reads, the outcomes of global attempts, the forgotten ones, and the tables.
#[derive(Drop)]
pub struct Report {
    pub order: Tids,
    pub reads: AllReads,
    pub outcomes: Outcomes,
    pub forgotten: Tids,
    pub tables: AllRows,
}
