//! Turns of a site, until an operation ends.
ghost use Rattle.std.specs.Prelude.{◌≡◌, ◌<◌, ◌∷◌, [], true, false, None, IfOk, IfErr, OnOk, OnErr, option_to_list};
ghost use Rattle.std.specs.Vec.{vec_len, vec_capacity};
ghost use Rattle.site.specs.Story.{Happening, handled, arrivals};
ghost use Rattle.site.specs.Turns.{IsTurnRefused};
ghost use Rattle.site_port.specs.Ends.{IsHandling, GoesOnWith, AreTold, HasTurns, HasStopped, end_by, ends_in, is_awaited as is_awaited_end};
ghost use Rattle.site_port.specs.Port.{StaysKept};

use crate::waiting::Late;
use actors::Machine;
use disk::Disk;
use durable_site::DurableSite;
use logical_time::{Fault, Node};
use messages::Outcome;
use site::Turn;
use std::alloc::Global;

// Whether this is the operation that is awaited.
fn is_awaited(awaited: &Option<(Node, u64)>, end: &Late) -> bool
    ensures { result ≡ is_awaited_end awaited.now end.now }
{
    match awaited {
        Some((node, number)) => end.session == *node && end.number == *number,
        None => false,
    }
}

/// Gives what this ended where that is awaited, and else puts it behind the ends in `late`. That there is room for one more is the
/// caller's condition.
pub(crate) fn tell(
    late: &mut Vec<Late>,
    awaited: &Option<(Node, u64)>,
    session: Node,
    ended: Option<(u64, Outcome)>,
) -> Option<Outcome>
    requires { vec_len late.old < vec_capacity late.old }
    ensures { AreTold awaited.now (option_to_list (end_by session ended)) late.old.items result late.new.items }
{
    let (number, outcome) = ended?;
    let end = Late {
        session,
        number,
        outcome,
    };
    if is_awaited(awaited, &end) {
        return Some(end.outcome);
    }
    late.push_reserved(end);
    None
}

// A turn of a site. What it ends is kept, but for what is awaited. Gives whether something was handled, and how what is awaited ended.
fn one_turn<M: Machine, D: Disk>(
    alloc: Global,
    site: &mut DurableSite<M, D>,
    late: &mut Vec<Late>,
    awaited: &Option<(Node, u64)>,
) -> Result<(bool, Option<Outcome>), Fault>
    ensures went { IfOk result (λ r. r.0 ≡ true → (h : Happening) × IsHandling h × GoesOnWith site.old.site (h ∷ []) site.new.site × AreTold awaited.now (ends_in (h ∷ [])) late.old.items r.1 late.new.items) }
    ensures rests { IfOk result (λ r. r.0 ≡ false → (site.new.site ≡ site.old.site) × (late.new.items ≡ late.old.items) × (r.1 ≡ None) × (handled site.old.site.story ≡ arrivals site.old.site.top site.old.site.dc site.old.site.story)) }
    ensures sound { OnOk result (site.new.site.sound ≡ true) }
    ensures refused { IfErr result (λ e. IsTurnRefused M.refuses site.old.site e site.new.site) }
    ensures same { OnErr result (late.new.items ≡ late.old.items) }
    ensures kept { StaysKept site.old site.new }
{
    late.reserve(1)?;
    match site.turn(alloc)? {
        Turn::Idle => Ok((false, None)),
        Turn::Handled => Ok((true, None)),
        Turn::Ended {
            session,
            number,
            outcome,
        } => Ok((true, tell(late, awaited, session, Some((number, outcome))))),
    }
}

/// Takes turns of a site until the operation that is awaited has ended, nothing waits, or so many turns were taken. Gives how it
/// ended; the ends of others are put behind those in `late`. Costs what the turns do. Refused as a turn is.
pub(crate) fn take_turns<M: Machine, D: Disk>(
    alloc: Global,
    site: &mut DurableSite<M, D>,
    late: &mut Vec<Late>,
    awaited: &Option<(Node, u64)>,
    most: u64,
) -> Result<Option<Outcome>, Fault>
    ensures took { IfOk result (λ told. HasTurns awaited.now most site.old.site late.old.items told site.new.site late.new.items) }
    ensures sound { OnOk result (site.old.site.sound ≡ true → site.new.site.sound ≡ true) }
    ensures stopped { IfErr result (λ e. HasStopped M.refuses awaited.now site.old.site late.old.items e site.new.site late.new.items) }
    ensures kept { StaysKept site.old site.new }
{
    for _taken in 0..most {
        let (went, ended) = one_turn(alloc, site, late, awaited)?;
        if let Some(outcome) = ended {
            return Ok(Some(outcome));
        }
        if !went {
            return Ok(None);
        }
    }
    Ok(None)
}
