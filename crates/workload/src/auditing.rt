//! A script is run in a world, and the reads of its run are audited.
ghost use Rattle.std.specs.Prelude.{◌≡◌, ◌↔◌, ◌⊎◌, true, Err, IsOkAnd, IfOk, IfErr};
ghost use Rattle.world.specs.Quiet.{IsQuiet};
ghost use Rattle.world.specs.World.{run_of};
ghost use Rattle.workload.specs.declared.tail.Tail.TheVariants as tail;
ghost use Rattle.workload.specs.Audited.{AreFirstHistories, IsAuditOf, told_text, IsAuditedTextFor};
ghost use Rattle.workload.specs.Marks.{merged};
ghost use Rattle.workload.specs.Performing.{IsRefused};
ghost use Rattle.workload.specs.Simulation.{run_of as run_of_script, simulated, IsTranscriptOf};

use crate::marks::Mark;
use crate::reading::read_script;
use crate::script::Script;
use crate::simulating::{copied_transcript, play_all};
use crate::transcript::Transcript;
use audit::{Audit, audit};
use logical_time::Fault;
use std::alloc::Global;
use std::mem;
use std::thread::Threads;
use table::History;
use world::{Completed, World};

/// The history of each data centre of a world. Refused with `Memory` alone. Costs what they do.
pub fn histories_of(alloc: Global, world: &World) -> Result<Vec<History>, Fault>
    ensures each { IfOk result (λ histories. AreFirstHistories world.now.top (run_of world.now) world.now.top.dcs histories.items) }
    ensures memory { IfErr result (λ e. e ≡ Fault.Memory) }
{
    let mut histories = Vec::new(alloc);
    for dc in 0..world.topology().dcs() {
        histories.push(world.history(alloc, dc)?)?;
    }
    Ok(histories)
}

// The audit of what ended in a world: no read is wrong. Refused with `Memory` alone.
fn audit_of(rt: &(impl Threads + Sync), alloc: Global, world: &World) -> Result<Audit, Fault>
    ensures audit { IfOk result (IsAuditOf world.now.top (run_of world.now) (run_of world.now).transcript) }
    ensures right { IfOk result (λ found. found.wrong ≡ 0) }
    ensures memory { IfErr result (λ e. e ≡ Fault.Memory) }
{
    // each session has its home in one of the data centres
    let _limits = world.topology();
    let histories = histories_of(alloc, world)?;
    audit(rt, alloc, histories.as_slice(), world.transcript())
}

// The transcript of what was played, whether the world is quiet, and the audit of what ended in it, unless something ended the
// script.
fn audited(
    rt: &(impl Threads + Sync),
    alloc: Global,
    world: &World,
    played: Result<Vec<Mark>, Fault>,
) -> Result<(Transcript, bool, Audit), Fault>
    ensures told { IfOk result (λ r. IsOkAnd played (λ marks. r.0 ≡ merged marks.items (run_of world.now).transcript)) }
    ensures quiet { IfOk result (λ r. (r.1 ≡ true) ↔ IsQuiet (run_of world.now)) }
    ensures audit { IfOk result (λ r. IsAuditOf world.now.top (run_of world.now) (run_of world.now).transcript r.2) }
    ensures right { IfOk result (λ r. r.2.wrong ≡ 0) }
    ensures ends { IfErr result (λ e. (e ≡ Fault.Memory) ⊎ (played ≡ Err e)) }
{
    let transcript = copied_transcript(alloc, world, played)?;
    let found = audit_of(rt, alloc, world)?;
    Ok((transcript, world.is_quiet(), found))
}

/// Runs a script as `simulate` does, and audits the run: its transcript, whether each message that was sent is handled at its
/// end, and how many of its reads were answered, and how many of these wrong: none is. Refused as `simulate` is. Costs what `simulate`
/// costs, the history of each data centre and `audit` over them.
pub fn simulate_audited(
    rt: &(impl Threads + Sync),
    alloc: Global,
    script: &Script,
) -> Result<(Transcript, bool, Audit), Fault>
    ensures told { IfOk result (λ r. IsTranscriptOf script.now r.0) }
    ensures quiet { IfOk result (λ r. (r.1 ≡ true) ↔ IsQuiet (run_of_script script.now)) }
    ensures audit { IfOk result (λ r. IsAuditOf script.now.topology (run_of_script script.now) (run_of_script script.now).transcript r.2) }
    // each read shows the one table of its home
    ensures right { IfOk result (λ r. r.2.wrong ≡ 0) }
    ensures faults { IfErr result (λ e. (e ≡ Fault.Memory) ⊎ (simulated script.now ≡ Err e)) }
{
    // each data centre has a shard
    let _limits = script.topology.shards();
    let mut world = World::new(alloc, &script.topology)?;
    let played = play_all(alloc, &mut world, script.events.as_slice());
    let found = audited(rt, alloc, &world, played);
    world.close();
    found
}

/// The transcript of the script that the bytes spell, whether its run is quiet, and the audit of that run, for a program that ends
/// with it: the memory of the script is given back with that of the process. Refused as `sim` is.
pub fn sim_audited(
    rt: &(impl Threads + Sync),
    alloc: Global,
    input: &[u8],
) -> Result<(Transcript, bool, Audit), Fault>
    ensures text { IfOk result (λ r. IsAuditedTextFor input.now (told_text r.0 (tail.AuditedRun r.1 r.2))) }
    // each read shows the one table of its home
    ensures right { IfOk result (λ r. r.2.wrong ≡ 0) }
    ensures refused { IfErr result (IsRefused input.now) }
{
    let Ok(text) = simdutf8::compat::from_utf8(input) else {
        return Err(Fault::Script);
    };
    let script = read_script(alloc, text)?;
    let found = simulate_audited(rt, alloc, &script)?;
    mem::forget(script);
    Ok(found)
}

/// Runs a script as `simulate` does, and gives what its run records: the history of each data centre, and the operations that ended,
/// in order. For a program that ends with it: the memory of what else the world recorded is given back with that of the process.
/// Refused as `simulate` is. Costs what `simulate` costs, and the history of each data centre.
pub fn simulate_recorded(
    alloc: Global,
    script: &Script,
) -> Result<(Vec<History>, Vec<Completed>), Fault>
    ensures histories { IfOk result (λ r. AreFirstHistories script.now.topology (run_of_script script.now) script.now.topology.dcs r.0.items) }
    ensures completed { IfOk result (λ r. r.1.items ≡ (run_of_script script.now).transcript) }
    ensures faults { IfErr result (λ e. (e ≡ Fault.Memory) ⊎ (simulated script.now ≡ Err e)) }
{
    let mut world = World::new(alloc, &script.topology)?;
    let played = play_all(alloc, &mut world, script.events.as_slice());
    let histories = histories_of(alloc, &world);
    let completed = world.leave();
    let _marks = played?;
    let histories = histories?;
    Ok((histories, completed))
}
