//! What a site keeps of its story.
ghost use Rattle.std.specs.Prelude.{◌≡◌, ◌⊎◌, ◌++◌, ◌∷◌, [], true, Some, slice_get, IfOk, OnOk, IfErr, OnErr, option_to_list};
ghost use Rattle.logical_time.specs.declared.fault.Fault.TheVariants.{Memory};
ghost use Rattle.messages.specs.Actors.{envelope_of};
ghost use Rattle.actors.specs.Journals.{number_after};
ghost use Rattle.actors.specs.declared.member.Member.{Member};
ghost use Rattle.site.specs.Story.{Story, Did, is_here, journal, IsFor};
ghost use Rattle.site.specs.Sites.{IsStory};
ghost use Rattle.site.specs.Keeping.{AreOf, AreSound, MemberDid, MemberRefused};
ghost use Rattle.site.specs.Turns.{is_sound};

use crate::past::Past;
use crate::queues;
use actors::{Happened, Machine, Member};
use logical_time::{Fault, Node};
use messages::{ActorEvent, Envelope, Outbox, Topology};
use std::alloc::Global;
use std::collections::VecDeque;
use std::snapshot::Snapshot;

/// The actors of a site, each at the place of its node, what waits for them, and what is to go to other sites.
pub(crate) struct Kept<M: Machine> {
    pub(crate) topology: Topology,
    pub(crate) dc: u16,
    pub(crate) members: Vec<Option<Member<M>>>,
    pub(crate) inbox: VecDeque<Envelope>,
    pub(crate) outgoing: VecDeque<Envelope>,
    /// What the last event sent, where that isn't sorted yet.
    pub(crate) fresh: Outbox,
}

// The actor at a place does an event. That it is there is the caller's condition.
fn happen_at<M: Machine>(
    members: &mut Vec<Option<Member<M>>>,
    place: usize,
    event: ActorEvent,
    sends: &mut Outbox,
) -> Result<Happened, (Fault, ActorEvent)>
    requires there { (m : Member M) × (slice_get members.old.items place ≡ Some (Some m)) }
    requires empty { sends.old.sent ≡ [] }
    ensures done { IfOk result (λ h. MemberDid M.came_from M.untaken members.old.items place event h sends.new.sent members.new.items) }
    ensures undone { IfErr result (λ e. MemberRefused M.came_from M.untaken M.refuses members.old.items place event e.0 members.new.items) }
    ensures unsent { OnErr result (sends.new.sent ≡ []) }
    ensures back { IfErr result (λ e. e.1 ≡ event) }
{
    match &mut members[place] {
        Some(member) => member.happen(event, sends),
        None => unreachable!(),
    }
}

impl<M: Machine> Kept<M> {
    /// Sorts what the last event sent. Refused with `Memory` alone, and then nothing changes.
    pub(crate) fn sort(&mut self, alloc: Global) -> Result<(), Fault>
        ensures kept { (s : Story) → AreOf M.came_from M.untaken self.old.topology self.old.dc s self.old.members.items self.old.inbox.items self.old.outgoing.items self.old.fresh.sent
            → AreOf M.came_from M.untaken self.new.topology self.new.dc s self.new.members.items self.new.inbox.items self.new.outgoing.items self.new.fresh.sent }
        ensures empty { OnOk result (self.new.fresh.sent ≡ []) }
        ensures fixed { (self.new.topology ≡ self.old.topology) × (self.new.dc ≡ self.old.dc) × (self.new.members ≡ self.old.members) }
        ensures memory { IfErr result (λ e. e ≡ Fault.Memory) }
    {
        queues::sort(
            alloc,
            &self.topology,
            self.dc,
            &mut self.fresh,
            &mut self.inbox,
            &mut self.outgoing,
        )
    }

    /// The actor with a node, which is here, does an event, which joins the story; where it handles an envelope, that was taken
    /// out of what waits. Where the actor refuses it the story stays, and the event is handed back.
    pub(crate) fn happen(
        &mut self,
        past: &mut Past,
        node: Node,
        event: ActorEvent,
    ) -> Result<Happened, (Fault, ActorEvent)>
        requires empty { self.old.fresh.sent ≡ [] }
        requires here { is_here self.old.topology self.old.dc node ≡ true }
        requires its { IsFor node event }
        requires now { AreOf M.came_from M.untaken self.old.topology self.old.dc past.old self.old.members.items (option_to_list (envelope_of event) ++ self.old.inbox.items) self.old.outgoing.items [] }
        ensures told { IfOk result (λ h. past.new ≡ past.old ++ Did node event self.new.fresh.sent h.ended ∷ []) }
        ensures goes { OnOk result (AreOf M.came_from M.untaken self.new.topology self.new.dc past.new self.new.members.items self.new.inbox.items self.new.outgoing.items self.new.fresh.sent) }
        ensures story { OnOk result (IsStory M.came_from M.untaken self.old.topology self.old.dc past.old → IsStory M.came_from M.untaken self.old.topology self.old.dc past.new) }
        ensures number { IfOk result (λ h. h.number ≡ number_after (journal past.old node) event) }
        ensures sound { IfOk result (λ h. h.sound ≡ is_sound past.old node event self.new.fresh.sent) }
        ensures sounds { IfOk result (λ h. h.sound ≡ true → AreSound past.old self.old.members.items → AreSound past.new self.new.members.items) }
        ensures stays { OnErr result (AreOf M.came_from M.untaken self.new.topology self.new.dc past.new self.new.members.items (option_to_list (envelope_of event) ++ self.new.inbox.items) self.new.outgoing.items []) }
        ensures still { OnErr result (AreSound past.old self.old.members.items → AreSound past.new self.new.members.items) }
        ensures refused { IfErr result (λ e. (e.0 ≡ Memory) ⊎ M.refuses self.old.topology node (journal past.old node) event e.0) }
        ensures untold { OnErr result (past.new ≡ past.old) }
        ensures unsent { OnErr result (self.new.fresh.sent ≡ []) }
        ensures queues { (self.new.topology ≡ self.old.topology) × (self.new.dc ≡ self.old.dc) × (self.new.inbox ≡ self.old.inbox) × (self.new.outgoing ≡ self.old.outgoing) }
        ensures back { IfErr result (λ e. e.1 ≡ event) }
    {
        let told = Snapshot::of(&event);
        let place = usize::from(node.get());
        match happen_at(&mut self.members, place, event, &mut self.fresh) {
            Ok(happened) => {
                past.add_event(node, told, &self.fresh, &happened.ended);
                Ok(happened)
            }
            Err(refused) => Err(refused),
        }
    }
}
