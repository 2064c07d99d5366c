//! HMAC over SHA-256.
ghost use Rattle.std.specs.Prelude.{◌≡◌, ◌++◌};
ghost use Rattle.sha2.specs.Sha256.{sha256};
ghost use Rattle.hello.specs.Mac.{xor_pad, block_of as block_of_key, hmac};

use crate::hello::put;
use sha2::{Digest, Sha256};

// A key as one block.
#[tactic(auto, unfolding(crate::specs::Mac::block_of))]
fn block_of(key: &[u8]) -> [u8; 64]
    ensures { result ≡ block_of_key key.now }
{
    let mut block = [0; 64];
    if key.len() <= 64 {
        put(&mut block, 0, key);
    } else {
        put(&mut block, 0, &Sha256::digest(key));
    }
    block
}

// Each byte of a block xored with this one.
fn xored(block: &[u8; 64], pad: u8) -> [u8; 64]
    ensures { result ≡ xor_pad pad block.now }
{
    let mut out = [0; 64];
    for i in 0..64 {
        out[i] = block[i] ^ pad;
    }
    out
}

/// The code, under a key of any length, of the message that three pieces make one behind the other. Costs one pass over
/// the key and the pieces, and copies no piece.
#[tactic(auto, unfolding(crate::specs::Mac::hmac))]
pub fn hmac_sha256(key: &[u8], first: &[u8], second: &[u8], third: &[u8]) -> [u8; 32]
    ensures { result ≡ hmac key.now (first.now ++ second.now ++ third.now) }
{
    let block = block_of(key);
    let mut inner = Sha256::new();
    inner.update(&xored(&block, 0x36));
    inner.update(first);
    inner.update(second);
    inner.update(third);
    let mut outer = Sha256::new();
    outer.update(&xored(&block, 0x5c));
    outer.update(&inner.finalize());
    outer.finalize()
}
