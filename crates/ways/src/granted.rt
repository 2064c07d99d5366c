//! The ways between sites.
ghost use Rattle.std.specs.Prelude.{◌≡◌, Bool, IfOk, OnOk, OnErr};
ghost use Rattle.ways.specs.Crossings.{Crossing, Sent, Refused, Confirmed, Nothing, came_by};

use logical_time::Fault;
use messages::Envelope;

/// What the world grants between the sites: ways that take envelopes to other data centres, and bring those that come from there. A way
/// may be slow, or cut; what goes by it may come late. That what comes was given by the site that it comes from is for whoever makes
/// the ways. What a caller knows of what crossed is as much as `steps` says.
pub trait Ways {
    /// A call: the ways before, what crossed, and the ways after.
    ghost steps: { Self → Crossing → Self → Type 0 };

    /// Whether too much waits for a data centre.
    ghost behind: { Self → Bool };

    /// Takes an envelope for the site of a data centre. It doesn't wait. Refused with `Memory`, and where there is no way there with
    /// `StrangerEnd`; then the envelope isn't taken.
    fn send(&mut self, to: u16, envelope: &Envelope) -> Result<(), Fault>
        ensures sent { OnOk result (steps self.old (Sent to envelope.now) self.new) }
        ensures unsent { OnErr result (steps self.old Nothing self.new) };

    /// Gives the next envelope that came, with the data centre that it came from; none where nothing is there now. It doesn't wait.
    /// Refused with `Memory`; then none is given.
    fn next(&mut self) -> Result<Option<(u16, Envelope)>, Fault>
        ensures came { IfOk result (λ e. steps self.old (came_by e) self.new) }
        ensures none { OnErr result (steps self.old Nothing self.new) };

    /// What came so far is kept here for good. From now on those who gave it may be told that it was taken, and then they forget it; before, they
    /// are told of nothing that came after the last such call.
    fn confirm(&mut self)
        ensures { steps self.old Confirmed self.new };

    /// What came last from a data centre may not come from there: nothing more is taken from there.
    fn refuse(&mut self, from: u16)
        ensures { steps self.old (Refused from) self.new };

    /// Whether too much waits for a data centre that is away.
    fn is_behind(&self) -> bool
        ensures { result ≡ behind self.now };

    /// Reads and writes what can be without waiting, at a time in milliseconds. Refused with `Memory`, and as the world refuses it.
    fn exchange(&mut self, time: u64) -> Result<(), Fault>
        ensures { steps self.old Nothing self.new };

    /// Writes what can be without waiting, at a time in milliseconds. Refused with `Memory`, and as the world refuses it.
    fn flush(&mut self, time: u64) -> Result<(), Fault>
        ensures { steps self.old Nothing self.new };
}
