//! Those that asked for one dependency.
ghost use Rattle.std.specs.Prelude.{◌≡◌, ◌∷◌, [], ◌++◌, map, true, IsOk, IfOk, OnOk, OnErr, IfErr};
ghost use Rattle.dependencies.specs.Waiting.{is_among, with_waiting, dep_ok};

use logical_time::{Fault, Node, Time, TxnId};
use messages::{Body, Envelope};
use std::alloc::Global;
use std::marker::Model;

/// An operation that waits for a dependency, and who asked for it: a shard for a write, a session for its move.
#[derive(Clone, Copy)]
pub(crate) struct Waiting {
    /// The operation.
    pub(crate) waiter: TxnId,
    /// The actor.
    pub(crate) from: Node,
}

/// Whether this actor asked for this operation already.
fn has(waiting: &[Waiting], waiter: TxnId, from: Node) -> bool
    ensures { result ≡ is_among (record { waiter = waiter; from = from }) waiting.now }
{
    waiting
        .iter()
        .any(|w| w.waiter.cmp(&waiter).is_eq() && w.from == from)
}

/// An answer to each.
fn answers(
    alloc: Global,
    waiting: &[Waiting],
    from: Node,
    time: Time,
    dependency: TxnId,
) -> Result<Vec<Envelope>, Fault>
    ensures ok { IfOk result (λ envelopes. envelopes.items ≡ map (dep_ok from time dependency) waiting.now) }
    ensures memory { IfErr result (λ e. e ≡ Fault.Memory) }
{
    let envelopes = waiting
        .iter()
        .map(|w| Envelope {
            from,
            to: w.from,
            time,
            body: Body::DepOk {
                dependency,
                waiter: w.waiter,
                commit: time,
            },
        })
        .collect(alloc)?;
    Ok(envelopes)
}

/// Those that asked for one dependency, in the order of their first asking.
#[derive(Drop)]
pub(crate) struct Waiters {
    waiting: Vec<Waiting>,
}

impl Model for Waiters {
    ghost use Rattle.std.specs.Prelude.{List};
    ghost use Rattle.dependencies.specs.declared.waiters.Waiting.{Waiting};

    ghost Value = { List Waiting };

    ghost view = { λ waiters. waiters.waiting.items };
}

impl Waiters {
    /// None.
    pub(crate) fn new(alloc: Global) -> Waiters
        ensures { result ≡ [] }
    {
        Waiters {
            waiting: Vec::new(alloc),
        }
    }

    /// Adds one at the end, unless the same actor asked for the same operation already.
    #[inline(always)]
    pub(crate) fn add(&mut self, one: Waiting) -> Result<(), Fault>
        ensures ok { OnOk result (self.new ≡ with_waiting one self.old) }
        ensures known { is_among one self.old ≡ true → IsOk result }
        ensures same { OnErr result (self.new ≡ self.old) }
        ensures memory { IfErr result (λ e. e ≡ Fault.Memory) }
    {
        let Waiting { waiter, from } = one;
        if has(self.waiting.as_slice(), waiter, from) {
            return Ok(());
        }
        self.waiting.push(Waiting { waiter, from })?;
        Ok(())
    }

    /// An answer to each, in order.
    pub(crate) fn dep_oks(
        &self,
        alloc: Global,
        from: Node,
        time: Time,
        dependency: TxnId,
    ) -> Result<Vec<Envelope>, Fault>
        ensures ok { IfOk result (λ envelopes. envelopes.items ≡ map (dep_ok from time dependency) self.now) }
        ensures memory { IfErr result (λ e. e ≡ Fault.Memory) }
    {
        answers(alloc, self.waiting.as_slice(), from, time, dependency)
    }
}
