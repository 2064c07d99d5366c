//! The key of one connection.
ghost use Rattle.std.specs.Prelude.{◌≡◌, ◌↔◌, ℕ, List, take, IsTrue};
ghost use Rattle.hello.specs.Mac.{hmac};
ghost use Rattle.hello.specs.Meeting.{tag_message};

use crate::comparing::same;
use crate::hello::put;
use crate::mac::hmac_sha256;
use crate::role::Role;
use std::marker::Model;

/// The key of one connection, which is never sent. Its value is its bytes.
#[derive(Drop)]
pub struct Key {
    bytes: [u8; 32],
}

impl Model for Key {
    ghost Value = { List ℕ };

    ghost view = { λ k. k.bytes };
}

impl Key {
    /// The key of these bytes.
    pub(crate) fn new(bytes: [u8; 32]) -> Key
        ensures { result ≡ bytes }
    {
        Key { bytes }
    }

    /// The tag of the frame that the end of this role sends with this number. Each end counts its frames from 0 on, and
    /// gives no number twice. Costs one pass over the frame.
    #[tactic(auto, unfolding(crate::specs::Meeting::tag_message))]
    pub fn tag(&self, role: Role, number: u64, frame: &[u8]) -> [u8; 16]
        ensures { result ≡ take 16 (hmac self.now (tag_message role number frame.now)) }
    {
        let mut head = [role.byte(); 9];
        put(&mut head, 1, &number.to_be_bytes());
        let code = hmac_sha256(&self.bytes, &head, frame, &[]);
        let mut tag = [0; 16];
        tag.copy_from_slice(&code[..16]);
        tag
    }

    /// Whether this is the tag of the frame that the end of this role sends with this number. It takes equally long
    /// whatever was given.
    pub fn is_tag(&self, role: Role, number: u64, frame: &[u8], given: &[u8; 16]) -> bool
        ensures { IsTrue result ↔ (given.now ≡ take 16 (hmac self.now (tag_message role number frame.now))) }
    {
        same(given, &self.tag(role, number, frame))
    }
}
