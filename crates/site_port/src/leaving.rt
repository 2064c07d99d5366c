//! Those who stood at places are gone.
ghost use Rattle.std.specs.Prelude.{◌≡◌, ℕ, Option, Some, length, slice_get};
ghost use Rattle.site_port.specs.declared.waiting.Waiting.{Waiting as WaitingValue};
ghost use Rattle.site_port.specs.Port.{unasked, AreLeft};

use crate::waiting::Waiting;

// Who stood at a place is gone.
fn leave_at(waiting: &mut Vec<Option<Waiting>>, place: usize)
    ensures count { length waiting.new.items ≡ length waiting.old.items }
    ensures here { (w : Option WaitingValue) → slice_get waiting.old.items place ≡ Some w → slice_get waiting.new.items place ≡ Some (unasked w) }
    ensures others { (k : ℕ) → (place ≡ k → ⊥) → slice_get waiting.new.items k ≡ slice_get waiting.old.items k }
{
    if place >= waiting.len() {
        return;
    }
    if let Some(open) = &mut waiting[place] {
        open.op = None;
    }
}

/// Who stood at these places is gone. One past the last is left out.
pub(crate) fn leave_all(waiting: &mut Vec<Option<Waiting>>, places: &[usize])
    ensures { AreLeft places.now waiting.old.items waiting.new.items }
{
    for place in places {
        leave_at(waiting, *place);
    }
}
