//! What is left of one order.
ghost use Rattle.std.specs.Prelude.{◌≡◌, IfOk, option_map, slice_get};
ghost use Rattle.mdb_base.specs.declared.names.Tid.{Tid};
ghost use Rattle.mdb_base.specs.Names.{same_tid};
ghost use Rattle.order_laws.specs.Chains.{Distinct};
ghost use Rattle.order_laws.specs.Orders.{Before, is_in};
ghost use Rattle.order_laws.specs.Least.{rest, without};

use mdb_base::{Memory, Tid, Tids};
use std::alloc::Global;
use std::collections::{BTreeSet, VecDeque};
use std::marker::Model;

/// What is left of an order, which contracts see as the list of its members.
#[derive(Drop)]
pub struct Queue {
    left: VecDeque<Tid>,
    /// The same members, for a test in logarithmic time.
    members: BTreeSet<Tid>,
}

impl Model for Queue {
    ghost use Rattle.std.specs.Prelude.{◌≡◌, List};
    ghost use Rattle.std.specs.BTreeSet.{contains};
    ghost use Rattle.mdb_base.specs.declared.names.Tid.{Tid};
    ghost use Rattle.mdb_base.specs.Names.{same_tid};
    ghost use Rattle.order_laws.specs.Orders.{is_in};
    ghost use Rattle.mdb_base.specs.Names.{tid_cmp};

    ghost Value = { List Tid };

    ghost view = { λ q. q.left.items };

    ghost invariant = { λ q. (t : Tid) → contains tid_cmp q.members t ≡ is_in same_tid q.left.items t };
}

impl Queue {
    /// All of the order.
    pub fn of(alloc: Global, order: &Tids) -> Result<Queue, Memory>
        ensures { IfOk result (λ queue. queue ≡ order.now) }
    {
        let mut left = VecDeque::new(alloc);
        let mut members = BTreeSet::new(alloc);
        for tid in order.as_slice() {
            left.push_back(*tid)?;
            members.insert(*tid)?;
        }
        Ok(Queue { left, members })
    }

    /// The first member.
    pub fn first(&self) -> Option<Tid>
        ensures { result ≡ slice_get self.now 0 }
    {
        self.left.front().copied()
    }

    /// Whether the attempt is a member, in logarithmic time.
    pub fn names(&self, tid: Tid) -> bool
        ensures { result ≡ is_in same_tid self.now tid }
    {
        self.members.contains(&tid)
    }

    /// Whether the attempt stands behind the first member.
    pub fn has_behind(&self, tid: Tid) -> bool
        requires { Distinct self.now }
        ensures { result ≡ is_in same_tid (rest self.now) tid }
    {
        match self.first() {
            Some(first) => first != tid && self.names(tid),
            None => false,
        }
    }

    /// Takes an attempt out that is the first member or none.
    pub fn take_out(&mut self, tid: Tid)
        requires distinct { Distinct self.old }
        requires first { (p : Tid) → Before self.old p tid → ⊥ }
        ensures { self.new ≡ without same_tid tid self.old }
    {
        if self.first() == Some(tid) {
            self.left.pop_front();
            self.members.remove(&tid);
        }
    }
}
