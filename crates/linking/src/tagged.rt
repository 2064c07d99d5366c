//! Bodies with their tags.
ghost use Rattle.std.specs.Prelude.{◌≡◌, ◌≢◌, ◌⊎◌, ◌+◌, ◌<◌, ◌^◌, ◌++◌, length, take, drop, IfOk, OnOk, OnErr, IfErr};
ghost use Rattle.logical_time.specs.declared.fault.Fault.TheVariants.{Memory};
ghost use Rattle.linking.specs.declared.trouble.Trouble.TheVariants.{Malformed, Forged, Refused};
ghost use Rattle.peers.specs.Frames.{frame};
ghost use Rattle.linking.specs.Said.{spelling, tag_of, tagged, IsNothingSaid};

use crate::said::{Said, read};
use crate::trouble::Trouble;
use crate::unsent::Unsent;
use hello::{Key, Role, same};
use logical_time::Fault;
use std::alloc::{AllocError, Global};

// A body with its tag before it.
fn with_tag(alloc: Global, tag: &[u8; 16], body: &[u8]) -> Result<Vec<u8>, AllocError>
    ensures { IfOk result (λ v. v.items ≡ tag.now ++ body.now) }
{
    let mut out = Vec::new(alloc);
    out.extend_from_slice(tag)?;
    out.extend_from_slice(body)?;
    Ok(out)
}

/// Puts a frame with its tag behind what is to be written. Refused with `Memory`; then nothing changes. Costs two passes over the
/// body.
pub(crate) fn put(
    alloc: Global,
    unsent: &mut Unsent,
    key: &Key,
    role: Role,
    count: u64,
    body: &[u8],
) -> Result<(), Fault>
    requires { 16 + length body.now < 2 ^ 32 }
    ensures ok { OnOk result (unsent.new ≡ unsent.old ++ frame (tagged key.now role count body.now)) }
    ensures refused { IfErr result (λ f. f ≡ Memory) }
    ensures stays { OnErr result (unsent.new ≡ unsent.old) }
{
    let whole = with_tag(alloc, &key.tag(role, count, body), body)?;
    unsent.put(&whole)
}

/// What a frame says whose sender has this role and sent so many with a tag before it. `Forged` where it hasn't the tag that it
/// must have, and only then looks into it: `Malformed` where it says nothing. Refused with `Memory`. Costs two passes over it.
pub(crate) fn open(
    alloc: Global,
    key: &Key,
    role: Role,
    count: u64,
    frame: &[u8],
) -> Result<Said, Trouble>
    ensures said { IfOk result (λ s. frame.now ≡ tagged key.now role count (spelling s)) }
    ensures trouble { IfErr result (λ t. (t ≡ Refused Memory)
        ⊎ ((t ≡ Forged) × (take 16 frame.now ≢ tag_of key.now role count (drop 16 frame.now)))
        ⊎ ((t ≡ Malformed) × (take 16 frame.now ≡ tag_of key.now role count (drop 16 frame.now)) × IsNothingSaid (drop 16 frame.now))) }
{
    let at = frame.len().min(16);
    let body = &frame[at..];
    if !same(&frame[..at], &key.tag(role, count, body)) {
        return Err(Trouble::Forged);
    }
    read(alloc, body)
}
