//! Hellos and proofs.
ghost use Rattle.std.specs.Prelude.{◌≡◌, ◌++◌, Some, None, MatchResult, OnOk, OnErr, IfErr, []};
ghost use Rattle.logical_time.specs.declared.fault.Fault.TheVariants.{Memory};
ghost use Rattle.linking.specs.declared.side.Stage.TheVariants.{Calling};
ghost use Rattle.linking.specs.Side.{hello_to as hello_of, refusal, last_proof, other as other_role, theirs_of};

use crate::unsent::Unsent;
use hello::{Expected, Hello, Role, Secret, Unwelcome, check};
use logical_time::Fault;

/// The role of the other end.
pub(crate) fn other(role: Role) -> Role
    ensures { result ≡ other_role role }
{
    match role {
        Role::Connecting => Role::Accepting,
        Role::Accepting => Role::Connecting,
    }
}

/// The hello of the other end.
pub(crate) fn theirs(role: Role, connecting: &Hello, accepting: &Hello) -> Hello
    ensures { result ≡ theirs_of role connecting.now accepting.now }
{
    match role {
        Role::Connecting => *accepting,
        Role::Accepting => *connecting,
    }
}

// Which process is known at a data centre, or zeros.
fn known(own: &Expected, dc: u16) -> [u8; 16]
    ensures { result ≡ (hello_of own.now dc []).known }
{
    match own.met.get(dc as usize) {
        Some(Some(met)) => *met,
        _ => [0; 16],
    }
}

/// The hello to a data centre, with what was drawn for this connection.
pub(crate) fn hello_to(own: &Expected, dc: u16, nonce: [u8; 32]) -> Hello
    ensures { result ≡ hello_of own.now dc nonce }
{
    Hello {
        version: 1,
        from: own.dc,
        to: dc,
        incarnation: own.incarnation,
        known: known(own, dc),
        digest: own.digest,
        nonce,
    }
}

/// Whether the hello that answers this one is welcome: `check`, and besides whether it is from the data centre that was called.
pub(crate) fn check_answer(own: &Expected, ours: &Hello, theirs: &Hello) -> Result<(), Unwelcome>
    ensures { MatchResult result (λ _. refusal own.now (Calling ours.now) theirs.now ≡ None) (λ e. refusal own.now (Calling ours.now) theirs.now ≡ Some e) }
{
    match check(own, theirs) {
        Err(why) => Err(why),
        Ok(()) => {
            if theirs.from != ours.to {
                return Err(Unwelcome::Stranger);
            }
            Ok(())
        }
    }
}

/// Puts the proof of the end that was called, which comes last.
pub(crate) fn put_last(
    unsent: &mut Unsent,
    secret: &Secret,
    role: Role,
    connecting: &Hello,
    accepting: &Hello,
) -> Result<(), Fault>
    ensures ok { OnOk result (unsent.new ≡ unsent.old ++ last_proof secret.now role connecting.now accepting.now) }
    ensures refused { IfErr result (λ f. f ≡ Memory) }
    ensures stays { OnErr result (unsent.new ≡ unsent.old) }
{
    match role {
        Role::Connecting => Ok(()),
        Role::Accepting => unsent.put(&secret.proof(Role::Accepting, connecting, accepting)),
    }
}
