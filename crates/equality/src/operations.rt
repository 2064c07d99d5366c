//! Operations.
ghost use Rattle.std.specs.Prelude.{◌≡◌, ◌↔◌, true};
ghost use Rattle.messages.specs.declared.op.Op.TheVariants as op;

use crate::lists::same_batch;
use crate::rows::same_read;
use column_family::Batch;
use messages::Op;
use slice::Read;

fn is_batch(b: &Op, batch: &Batch) -> bool
    ensures { (result ≡ true) ↔ (b.now ≡ op.Batch batch.now) }
{
    match b {
        Op::Batch(its_batch) => same_batch(its_batch.get(), batch),
        Op::Read(_) | Op::Move { .. } => false,
    }
}

fn is_read(b: &Op, read: &Read) -> bool
    ensures { (result ≡ true) ↔ (b.now ≡ op.Read read.now) }
{
    match b {
        Op::Read(its_read) => same_read(its_read.get(), read),
        Op::Batch(_) | Op::Move { .. } => false,
    }
}

fn is_move(b: &Op, dc: u16) -> bool
    ensures { (result ≡ true) ↔ (b.now ≡ op.Move dc) }
{
    match b {
        Op::Move { dc: its_dc } => *its_dc == dc,
        Op::Batch(_) | Op::Read(_) => false,
    }
}

/// Whether two operations ask the same. Costs what they are long.
pub fn same_op(a: &Op, b: &Op) -> bool
    ensures { (result ≡ true) ↔ (a.now ≡ b.now) }
{
    match a {
        Op::Batch(batch) => is_batch(b, batch.get()),
        Op::Read(read) => is_read(b, read.get()),
        Op::Move { dc } => is_move(b, *dc),
    }
}
