//! Envelopes.
ghost use Rattle.std.specs.Prelude.{◌≡◌, ◌↔◌, true};

use crate::bodies::same_body;
use messages::Envelope;

/// Whether two envelopes have the same sender, the same receiver, the same time and say the same. Costs what they are long.
pub fn same_envelope(a: &Envelope, b: &Envelope) -> bool
    ensures { (result ≡ true) ↔ (a.now ≡ b.now) }
{
    a.from == b.from && a.to == b.to && a.time == b.time && same_body(&a.body, &b.body)
}
