//! A request of a session that has nothing open.
ghost use Rattle.std.specs.Prelude.{◌≡◌, ◌⊎◌, true, Some, IfOk, OnOk, IfErr, OnErr};
ghost use Rattle.messages.specs.Topology.{is_session};
ghost use Rattle.messages.specs.declared.event.ActorEvent.TheVariants.{Submit};
ghost use Rattle.site.specs.Story.{is_here as keeps_actor};
ghost use Rattle.site.specs.Turns.{IsRefused};
ghost use Rattle.site_port.specs.Port.{HasBegun, StaysKept};

use crate::turns::{take_turns, tell};
use crate::waiting::{Late, Waiting};
use actors::Machine;
use disk::Disk;
use durable_site::DurableSite;
use logical_time::{Fault, Node};
use messages::{Op, Outcome};
use site::Submitted;
use std::alloc::Global;

/// How many turns a request takes at most.
const MOST_TURNS: u64 = 1_000_000;

/// A request whose operation was submitted.
#[derive(Drop)]
pub(crate) struct Begun {
    /// How it ended, if it did, or why turns ended.
    pub told: Result<Option<Outcome>, Fault>,
    /// What is open if it didn't end.
    pub waiting: Waiting,
}

/// A session submits an operation, and turns are taken until it has ended or nothing waits. What ends beside it is put behind the
/// ends in `late`. Costs what the submission and the turns do, and a copy of the operation. Refused as the site refuses the
/// submission, and with `Memory`; then nothing was submitted.
pub(crate) fn ask<M: Machine, D: Disk>(
    alloc: Global,
    site: &mut DurableSite<M, D>,
    late: &mut Vec<Late>,
    node: Node,
    op: Op,
) -> Result<Begun, Fault>
    requires session { is_session site.old.site.top node ≡ true }
    requires here { keeps_actor site.old.site.top site.old.site.dc node ≡ true }
    ensures begun { IfOk result (λ b. HasBegun M.refuses node site.old.site op b.waiting.number late.old.items b.told site.new.site late.new.items × (b.waiting.op ≡ Some op)) }
    ensures sound { IfOk result (λ b. OnOk b.told (site.new.site.sound ≡ true)) }
    ensures declined { IfErr result (λ e. ((e ≡ Fault.Memory) × (site.new.site ≡ site.old.site)) ⊎ IsRefused M.refuses site.old.site node (Submit op) e site.new.site) }
    ensures same { OnErr result (late.new.items ≡ late.old.items) }
    ensures kept { StaysKept site.old site.new }
{
    let copy = op.copied()?;
    late.reserve(1)?;
    let Submitted { number, ended } = site.submit(alloc, node, op)?;
    let awaited = Some((node, number));
    let told = match tell(late, &awaited, node, ended) {
        Some(outcome) => Ok(Some(outcome)),
        None => take_turns(alloc, site, late, &awaited, MOST_TURNS),
    };
    Ok(Begun {
        told,
        waiting: Waiting {
            number,
            op: Some(copy),
        },
    })
}
