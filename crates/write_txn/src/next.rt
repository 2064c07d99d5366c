//! What a step makes of what was under way of a transaction.
ghost use Rattle.std.specs.Prelude.{◌≡◌, Some};
ghost use Rattle.messages.specs.Commits.{stamp_for};
ghost use Rattle.txn_state.specs.RemoteBallot.{missing_in};
ghost use Rattle.txn_state.specs.Ready.{ready_at};
ghost use Rattle.txn_state.specs.Voted.{voted};
ghost use Rattle.write_txn.specs.Ledger.{Holds, state_prepared, state_with, state_applied, part_in, state_voted, completed_by, led_after, complete_in, state_ready, readied_by, remote_after, ready_complete, lacks_nothing};
ghost use Rattle.write_txn.specs.Next.{state_next};

use crate::open::{CohortPart, Led, Missing, Open, Origin, Remote, ReplicatedPart};
use logical_time::{Node, Stamp, Time};
use txn_state::{Complete, Prepared, Ready, Voted};

/// What becomes of what was under way. It must be spent.
pub(crate) enum Next {
    /// Something is still under way.
    Holds(Open),
    /// The part is applied.
    Applied,
    /// The transaction is decided.
    Decided {
        /// The commit time in this data centre.
        commit: Time,
        /// The stamp.
        stamp: Stamp,
    },
}

/// The stamp of a transaction that the shard with the node `me` decides at this time: where the write was submitted here it
/// is that time and this node, else it came with the write.
pub fn stamp_of(me: Node, commit: Time, stamp: &Option<Stamp>) -> Stamp
    ensures { result ≡ stamp_for me commit stamp.now }
{
    match stamp {
        None => Stamp::new(commit, me),
        Some(stamp) => *stamp,
    }
}

/// Prepares a part that is kept.
pub(crate) fn prepared(held: Open, time: Time) -> Open
    ensures { Some (Holds result) ≡ state_prepared time (Some (Holds held)) }
{
    match held {
        Open::Kept(ReplicatedPart { part, stamp: _ }) => Open::Part(CohortPart::new(
            part,
            time,
            Origin::Replicated,
        )),
        other => other,
    }
}

/// Whether what is under way is a ballot that waits, and this is the last thing that it misses.
#[inline]
pub(crate) fn is_last(held: &Open, missing: &Missing) -> bool
    ensures { result ≡ lacks_nothing (state_with missing.now (Some (Holds held.now))) }
{
    match held {
        Open::Remote(remote) => remote.is_last(missing),
        _ => false,
    }
}

/// Counts what was missing of a ballot that waits.
#[inline]
pub(crate) fn count(held: &mut Open, missing: Missing)
    ensures { Some (Holds held.new) ≡ state_with missing (Some (Holds held.old)) }
{
    if let Open::Remote(remote) = held {
        match missing {
            Missing::Notice(node) => remote.ballot.notice(node),
            Missing::Answer(dependency) => remote.ballot.dep_ok(dependency),
        }
    }
}

/// Hands out a part that is prepared.
pub(crate) fn finished(held: Open) -> (Next, Option<Prepared>)
    ensures next { Some (state_next result.0) ≡ state_applied (Some (Holds held)) }
    ensures part { result.1 ≡ part_in (Some (Holds held)) }
{
    match held {
        Open::Part(part) => (Next::Applied, Some(part.into_prepared())),
        other => (Next::Holds(other), None),
    }
}

/// Counts a vote for a ballot whose cohorts are voting.
fn voted_led(led: Led, node: Node, me: Node, commit: Time) -> (Next, Option<Complete>)
    ensures next { state_next result.0 ≡ led_after led me commit (voted led.ballot node) }
    ensures complete { result.1 ≡ complete_in (voted led.ballot node) }
{
    let Led {
        ballot,
        cohorts,
        dependencies,
        stamp,
    } = led;
    match ballot.vote(node) {
        Voted::More(ballot) => (
            Next::Holds(Open::Led(Led {
                ballot,
                cohorts,
                dependencies,
                stamp,
            })),
            None,
        ),
        Voted::All(complete) => {
            let stamp = stamp_of(me, commit, &stamp);
            (Next::Decided { commit, stamp }, Some(complete))
        }
    }
}

/// Counts a vote, if there is a ballot whose cohorts are voting.
pub(crate) fn voted(held: Open, node: Node, me: Node, commit: Time) -> (Next, Option<Complete>)
    ensures next { Some (state_next result.0) ≡ state_voted me commit node (Some (Holds held)) }
    ensures complete { result.1 ≡ completed_by node (Some (Holds held)) }
{
    match held {
        Open::Led(led) => voted_led(led, node, me, commit),
        other => (Next::Holds(other), None),
    }
}

/// Makes a ballot of which nothing is missing ready.
fn readied_remote(remote: Remote, time: Time) -> (Next, Option<Complete>)
    requires { missing_in remote.ballot ≡ 0 }
    ensures next { state_next result.0 ≡ remote_after remote time (ready_at remote.ballot time) }
    ensures complete { result.1 ≡ ready_complete (ready_at remote.ballot time) }
{
    let Remote {
        ballot,
        cohorts,
        dependencies,
    } = remote;
    let stamp = ballot.stamp();
    match ballot.ready(time) {
        Ready::Ballot(ballot) => (
            Next::Holds(Open::Led(Led {
                ballot,
                cohorts,
                dependencies,
                stamp: Some(stamp),
            })),
            None,
        ),
        Ready::Complete(complete) => (
            Next::Decided {
                commit: time,
                stamp,
            },
            Some(complete),
        ),
    }
}

/// Makes a ballot ready, if there is one that waits and of which nothing is missing.
pub(crate) fn readied(held: Open, time: Time) -> (Next, Option<Complete>)
    ensures next { Some (state_next result.0) ≡ state_ready time (Some (Holds held)) }
    ensures complete { result.1 ≡ readied_by time (Some (Holds held)) }
{
    match held {
        Open::Remote(remote) if remote.ballot.missing() == 0 => readied_remote(remote, time),
        other => (Next::Holds(other), None),
    }
}
