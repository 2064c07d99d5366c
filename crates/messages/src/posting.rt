//! Notices of decisions, as envelopes.
ghost use Rattle.std.specs.Prelude.{◌≡◌, ◌+◌, ◌≤◌, ◌++◌, length, map};
ghost use Rattle.messages.specs.Posting.{commit_to};

use crate::body::Body;
use crate::envelope::Envelope;
use crate::outbox::Outbox;
use logical_time::{Node, Stamp, Time, TxnId};
use txn_state::{Post, Prepared, Verdict};

/// An outbox during an event of the actor with this node, whose clock shows this time. A notice is a `Commit`.
#[derive(Drop)]
pub(crate) struct Posting<'a> {
    outbox: &'a mut Outbox,
    from: Node,
    time: Time,
}

impl Post for Posting<'_> {
    ghost use Rattle.std.specs.Prelude.{◌≡◌};
    ghost use Rattle.messages.specs.Posting.{commit_to, Posts};

    ghost noticed = { λ p to txn commit stamp q. Posts p.outbox.now (commit_to p.from p.time txn commit stamp to) q.outbox.now × (q.outbox.ghost_name ≡ p.outbox.ghost_name) × (q.from ≡ p.from) × (q.time ≡ p.time) };

    ghost space = { λ p. p.outbox.now.room };

    fn room(&self) -> usize {
        self.outbox.room()
    }

    fn notice(&mut self, to: Node, txn: TxnId, commit: Time, stamp: Stamp) {
        let envelope = Envelope {
            from: self.from,
            to,
            time: self.time,
            body: Body::Commit { txn, commit, stamp },
        };
        self.outbox.post(envelope).unwrap();
    }
}

/// Posts a `Commit` to each cohort of the verdict.
fn announced(verdict: Verdict, posting: &mut Posting) -> Prepared
    requires { length verdict.cohorts ≤ posting.old.outbox.now.room }
    ensures same_outbox { posting.new.outbox.ghost_name ≡ posting.old.outbox.ghost_name }
    ensures sent { posting.new.outbox.now.sent ≡ posting.old.outbox.now.sent ++ map (commit_to posting.old.from posting.old.time verdict.own.part.writer.txn verdict.commit verdict.stamp) verdict.cohorts }
    ensures room { posting.old.outbox.now.room ≤ posting.new.outbox.now.room + length verdict.cohorts }
    ensures own { result ≡ verdict.own }
{
    verdict.announce(posting)
}

/// Announces a verdict at an event of the actor with this node, whose clock shows this time: posts a `Commit` to each
/// cohort, in order. Hands out the coordinator's own part, which is to be applied.
pub fn announce(verdict: Verdict, outbox: &mut Outbox, from: Node, time: Time) -> Prepared
    requires { length verdict.cohorts ≤ outbox.old.room }
    ensures sent { outbox.new.sent ≡ outbox.old.sent ++ map (commit_to from time verdict.own.part.writer.txn verdict.commit verdict.stamp) verdict.cohorts }
    ensures room { outbox.old.room ≤ outbox.new.room + length verdict.cohorts }
    ensures own { result ≡ verdict.own }
{
    let mut posting = Posting { outbox, from, time };
    announced(verdict, &mut posting)
}
