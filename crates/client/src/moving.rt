//! Moves.
ghost use Rattle.std.specs.Prelude.{◌≡◌, ◌+◌, ◌^◌, ◌<◌, map, IfOk, IfErr};
ghost use Rattle.logical_time.specs.Fault.{IsRefusedFor};
ghost use Rattle.messages.specs.Submitting.{move_fault};
ghost use Rattle.client.specs.declared.current.Current.TheVariants.{Idle};
ghost use Rattle.client.specs.Envelopes.{check_part};
ghost use Rattle.client.specs.State.{dependencies_of, topology_of};
ghost use Rattle.client.specs.Steps as steps;

use crate::current::Current;
use crate::hearing::{is_last, put};
use crate::home::Home;
use crate::kept::SessionKept;
use dependencies::{Missing, MoveTaken};
use logical_time::{Clock, Fault, Node, Time, TxnId, Writer};
use messages::{Body, Envelope, Outcome};
use std::alloc::Global;
use std::mem;

/// Whether the session may move to this data centre: refused with `UnknownHome` where there is none, then with
/// `AlreadyHome` where the session is there.
pub(crate) fn check_move(kept: &SessionKept, dc: u16) -> Result<(), Fault>
    ensures { IsRefusedFor (move_fault (topology_of kept.now) kept.now.home.dc dc) result }
{
    if kept.home.dcs() <= dc {
        return Err(Fault::UnknownHome);
    }
    if dc == kept.home.dc() {
        return Err(Fault::AlreadyHome);
    }
    Ok(())
}

/// A DepCheck of each dependency, to its coordinator in this data centre.
fn checks_of(
    alloc: Global,
    home: Home,
    node: Node,
    time: Time,
    waiter: TxnId,
    dependencies: &[Writer],
) -> Result<Vec<Envelope>, Fault>
    ensures ok { IfOk result (λ checks. checks.items ≡ map (check_part home node time waiter) dependencies.now) }
    ensures memory { IfErr result (λ e. e ≡ Fault.Memory) }
{
    let checks = dependencies
        .iter()
        .map(|w| Envelope {
            from: node,
            to: home.node_of(w.shard()),
            time,
            body: Body::DepCheck {
                dependency: w.txn(),
                waiter,
            },
        })
        .collect(alloc)?;
    Ok(checks)
}

/// What a move asks for, and the envelopes that ask.
pub(crate) fn move_checks(
    kept: &SessionKept,
    clock: Clock,
    home: Home,
) -> Result<(Missing, Vec<Envelope>), Fault>
    requires { kept.now.count < 2 ^ 48 }
    ensures missing { IfOk result (λ asks. asks.0 ≡ dependencies_of kept.now) }
    ensures sends { IfOk result (λ asks. asks.1.items ≡ map (check_part home kept.now.node clock (record { session = kept.now.node; number = kept.now.count + 1 })) (dependencies_of kept.now)) }
    ensures memory { IfErr result (λ e. e ≡ Fault.Memory) }
{
    let waiter = TxnId {
        session: kept.node,
        number: kept.count + 1,
    };
    let writers = kept.dependencies.to_writers(kept.added.as_slice())?;
    let checks = checks_of(
        kept.alloc,
        home,
        kept.node,
        clock.now(),
        waiter,
        writers.as_slice(),
    )?;
    let missing = Missing::new(kept.alloc, writers)?;
    Ok((missing, checks))
}

/// Ends the last operation, a move to this home, which was taken out.
#[inline]
pub(crate) fn end_move(kept: &mut SessionKept, clock: Clock, home: Home, floor: Time)
    requires { kept.old.current ≡ Idle }
    ensures { kept.new ≡ steps.moved clock kept.old home floor }
{
    kept.clock = clock;
    kept.home = home;
    kept.floor = floor;
    let dc = home.dc();
    kept.untaken = Some((kept.count, Outcome::Moved { dc, floor }));
}

/// Goes on with what an answer made of the open move to this home, which was taken out.
fn after_ok(kept: &mut SessionKept, clock: Clock, home: Home, taken: MoveTaken)
    requires { kept.old.current ≡ Idle }
    ensures { kept.new ≡ steps.after_ok taken clock kept.old home }
{
    match taken {
        MoveTaken::More(open) => {
            kept.clock = clock;
            put(kept, Current::Move { home, open });
        }
        MoveTaken::Ended(floor) => end_move(kept, clock, home, floor),
    }
}

/// DepOk: counted where it is for the open move. Takes no memory.
pub(crate) fn dep_ok(
    kept: &mut SessionKept,
    clock: Clock,
    dependency: TxnId,
    waiter: TxnId,
    commit: Time,
)
    ensures { kept.new ≡ steps.ok_in kept.old.current clock kept.old dependency waiter commit }
{
    if !is_last(kept, waiter) {
        kept.clock = clock;
        return;
    }
    match mem::replace(&mut kept.current, Current::Idle) {
        Current::Move { home, open } => {
            let taken = open.answer(dependency, commit);
            after_ok(kept, clock, home, taken);
        }
        current => {
            kept.clock = clock;
            put(kept, current);
        }
    }
}
