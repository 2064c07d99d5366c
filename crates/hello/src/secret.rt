//! The secret that two data centres share.
ghost use Rattle.std.specs.Prelude.{◌≡◌, ◌≤◌, ◌↔◌, ℕ, List, length, nat_le, if◌then◌else◌, Some, None, IsTrue};
ghost use Rattle.hello.specs.Mac.{hmac};
ghost use Rattle.hello.specs.Meeting.{proof_message, key_message};

use crate::comparing::same;
use crate::hello::Hello;
use crate::key::Key;
use crate::mac::hmac_sha256;
use crate::role::Role;
use std::marker::Model;

/// A secret of at least 32 bytes, which is never sent. Its value is these bytes.
#[derive(Drop)]
pub struct Secret {
    bytes: Vec<u8>,
}

impl Model for Secret {
    ghost Value = { List ℕ };

    ghost view = { λ s. s.bytes.items };

    ghost invariant = { λ s. 32 ≤ length s.bytes.items };
}

impl Secret {
    /// The secret of these bytes, if they are at least 32. How hard they are to guess nothing here can say.
    pub fn new(bytes: Vec<u8>) -> Option<Secret>
        ensures { result ≡ (if nat_le 32 (length bytes.items) then Some bytes.items else None) }
    {
        if bytes.len() < 32 {
            return None;
        }
        Some(Secret { bytes })
    }

    /// What the end of this role sends to show that it knows the secret: the code of its role and both hellos.
    #[tactic(auto, unfolding(crate::specs::Meeting::proof_message))]
    pub fn proof(&self, role: Role, connecting: &Hello, accepting: &Hello) -> [u8; 32]
        ensures { result ≡ hmac self.now (proof_message role connecting.now accepting.now) }
    {
        let mut head = *b"eiger proof 1 ";
        head[13] = role.byte();
        hmac_sha256(&self.bytes, &head, &connecting.write(), &accepting.write())
    }

    /// Whether this is what the end of this role has to send. It takes equally long whatever was given.
    pub fn is_proof(
        &self,
        role: Role,
        connecting: &Hello,
        accepting: &Hello,
        given: &[u8; 32],
    ) -> bool
        ensures { IsTrue result ↔ (given.now ≡ hmac self.now (proof_message role connecting.now accepting.now)) }
    {
        same(given, &self.proof(role, connecting, accepting))
    }

    /// The key of the connection that began with these hellos.
    #[tactic(auto, unfolding(crate::specs::Meeting::key_message))]
    pub fn key(&self, connecting: &Hello, accepting: &Hello) -> Key
        ensures { result ≡ hmac self.now (key_message connecting.now accepting.now) }
    {
        Key::new(hmac_sha256(
            &self.bytes,
            b"eiger key 1",
            &connecting.write(),
            &accepting.write(),
        ))
    }
}
