//! The partition of rows over the shards of a data centre.
ghost use Rattle.std.specs.Prelude.{◌≡◌, ◌<◌, ◌≤◌, length, sum};
ghost use Rattle.planner.specs.Partition as partition;

use column_family::Key;
use logical_time::{Shard, Shards};

/// Up to how many bytes are added as numbers of 64 bits.
const FEW: usize = 65_536;

/// The sum of few bytes.
fn byte_sum_of_few(bytes: &[u8]) -> u64
    requires { length bytes.now ≤ 65536 }
    ensures { result ≡ sum bytes.now }
{
    let mut total: u64 = 0;
    for byte in bytes {
        total += u64::from(*byte);
    }
    total
}

/// The sum of the bytes.
fn byte_sum(bytes: &[u8]) -> u128
    ensures { result ≡ sum bytes.now }
{
    if bytes.len() <= FEW {
        return u128::from(byte_sum_of_few(bytes));
    }
    let mut total: u128 = 0;
    for byte in bytes {
        total += u128::from(*byte);
    }
    total
}

/// The shard of a key, of so many: the one to which the sum of its bytes falls, so the remainder of the sum by the
/// number of shards. It is the same in every data centre.
pub fn shard_of(key: &Key, shards: Shards) -> Shard
    ensures value { result ≡ partition.shard_of shards key.now }
    ensures below { result < shards }
{
    shards.shard_for(byte_sum(key.as_slice()))
}
