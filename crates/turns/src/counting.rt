//! A machine of another kind: it counts the operations that it accepts, and each ends at once.
ghost use Rattle.std.specs.Prelude.{◌≡◌, ◌+◌, true, IfOk, OnOk, IfErr, OnErr};
ghost use Rattle.turns.specs.Counting.{CountsSubmissions, RefusesCollections};

use crate::building::{batch, topology};
use crate::seats::{close_all, load, run_seats};
use crate::showing::print;
use actors::{Machine, Mesh, Open, Seat};
use logical_time::{Fault, Node};
use messages::{ActorEvent, Envelope, Op, Outbox, Outcome, Topology};
use running::Workers;
use std::alloc::Global;
use std::sync::Wait;
use std::thread::Threads;

/// Counts the operations that it accepts. An envelope does nothing, and a collection is refused.
struct Counter {
    count: u64,
    ended: Option<(u64, Outcome)>,
}

fn let_op_go(_op: Op) {}

fn let_envelope_go(_envelope: Envelope) {}

impl Counter {
    /// Counts one more, which ends. Refused with `ClockSpent` where the count is spent.
    fn count_one(&mut self) -> Result<u64, Fault>
        ensures number { IfOk result (λ n. n ≡ self.old.count + 1) }
        ensures ok { OnOk result (self.new.count ≡ self.old.count + 1) }
        ensures err { OnErr result (self.new ≡ self.old) }
        ensures spent { IfErr result (λ e. e ≡ Fault.ClockSpent) }
    {
        match self.count.checked_add(1) {
            Some(number) => {
                self.count = number;
                self.ended = Some((number, Outcome::Collected));
                Ok(number)
            }
            None => Err(Fault::ClockSpent),
        }
    }
}

impl Machine for Counter {
    ghost came_from = { CountsSubmissions };

    ghost untaken = { λ m. m.ended };

    ghost is_free = { λ m. true };

    ghost refuses = { RefusesCollections };

    fn new(_alloc: Global, _topology: &Topology, _node: Node) -> Result<Counter, Fault> {
        Ok(Counter {
            count: 0,
            ended: None,
        })
    }

    #[tactic(auto, using(crate::proofs::Counts::counts_submitted, crate::proofs::Counts::counts_handled, crate::proofs::Counts::numbers_submitted, crate::proofs::Counts::refuses_submitted, crate::proofs::Counts::refuses_collected))]
    fn step(
        &mut self,
        event: ActorEvent,
        _outbox: &mut Outbox,
    ) -> Result<Option<u64>, (Fault, ActorEvent)> {
        match event {
            ActorEvent::Submit(op) => match self.count_one() {
                Ok(number) => {
                    let_op_go(op);
                    Ok(Some(number))
                }
                Err(fault) => Err((fault, ActorEvent::Submit(op))),
            },
            ActorEvent::Handle(envelope) => {
                let_envelope_go(envelope);
                Ok(None)
            }
            ActorEvent::Collect(time) => Err((Fault::Collected, ActorEvent::Collect(time))),
        }
    }

    fn take_answer(&mut self) -> Option<(u64, Outcome)> {
        self.ended.take()
    }

    fn free(&self) -> bool {
        true
    }

    fn close(self) {
        let Counter { count: _, ended: _ } = self;
    }
}

/// Each machine is to count two operations.
fn load_all(alloc: Global, seats: &mut [Seat<Counter>]) -> Result<(), Fault> {
    for seat in seats.iter_mut() {
        load(alloc, seat, ActorEvent::Submit(batch(alloc, &["b:x1"])?))?;
        load(alloc, seat, ActorEvent::Submit(batch(alloc, &["b:x2"])?))?;
    }
    Ok(())
}

fn seats_of(alloc: Global) -> Result<Vec<Seat<Counter>>, Fault> {
    let topology = topology(alloc, (1, 2), &[0])?;
    let mut seats = Mesh::build_sized(alloc, &topology, 1, 2)?;
    match load_all(alloc, seats.as_mut_slice()) {
        Ok(()) => Ok(seats),
        Err(fault) => {
            close_all(seats);
            Err(fault)
        }
    }
}

/// Tells how many events and outcomes each machine has.
fn tell_seats(rt: &HostRuntime, seats: &[Seat<Counter>]) -> Result<(), Fault> {
    for seat in seats {
        let node = seat.node().get();
        let (events, outcomes) = (seat.journal().len(), seat.outcomes().len());
        let line = format!(in rt.alloc(); "counter {node}: events {events}, outcomes {outcomes}")?;
        print(rt, line.as_str())?;
    }
    Ok(())
}

pub(crate) fn tell<R: Threads + Wait + Sync>(rt: &HostRuntime, threads: &R) -> Result<(), Fault> {
    let alloc = rt.alloc();
    let workers = Workers::new(2).ok_or(Fault::Script)?;
    let (seats, _) = run_seats(threads, alloc, seats_of(alloc)?, &workers, &Open)?;
    let told = tell_seats(rt, seats.as_slice());
    close_all(seats);
    told
}
