//! An operation that is open is asked for again.
ghost use Rattle.std.specs.Prelude.{◌≡◌, ◌⊎◌, ◌<◌, ◌≤◌, true, false, List, All, Some, None, IfOk, OnErr, IfErr, length, slice_get, take};
ghost use Rattle.std.specs.Vec.{vec_len};
ghost use Rattle.site_port.specs.Ends.{is_awaited as is_awaited_end};
ghost use Rattle.site_port.specs.Port.{HasTaken};

use crate::waiting::Late;
use logical_time::Node;
use messages::Outcome;

// Whether this is the end of an operation.
fn is_end(end: &Late, session: Node, number: u64) -> bool
    ensures { result ≡ is_awaited_end (Some (session, number)) end.now }
{
    end.session == session && end.number == number
}

// The place of an operation's end among these; their number where it isn't among them.
fn place_of(late: &[Late], session: Node, number: u64) -> usize
    ensures within { result ≤ length late.now }
    ensures before { All (λ l. is_awaited_end (Some (session, number)) l ≡ false) (take result late.now) }
    ensures there { (l : Late) → slice_get late.now result ≡ Some l → is_awaited_end (Some (session, number)) l ≡ true }
{
    for place in 0..late.len() {
        if is_end(&late[place], session, number) {
            return place;
        }
    }
    late.len()
}

/// Takes the end of an operation from those in `late`, if it is among them. Linear in these.
pub(crate) fn take_end(late: &mut Vec<Late>, session: Node, number: u64) -> Option<Outcome>
    ensures { HasTaken session number late.old.items result late.new.items }
{
    let place = place_of(late, session, number);
    if place == late.len() {
        return None;
    }
    Some(late.remove(place).outcome)
}
