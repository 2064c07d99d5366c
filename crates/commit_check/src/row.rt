//! The rows that a read asks for.
ghost use Rattle.std.specs.Prelude.{◌≡◌, IfOk, IfErr, map};
ghost use Rattle.logical_time.specs.declared.fault.Fault.TheVariants as fault;
ghost use Rattle.slice.specs.Rows.{row_of};

use column_family::Row;
use logical_time::Fault;
use slice::Read;
use std::alloc::Global;

/// The rows that a read asks for, in its order, repeats included. Refused with `Memory` alone.
pub fn rows_of(alloc: Global, read: &Read) -> Result<Vec<Row>, Fault>
    ensures ok { IfOk result (λ asked. asked.items ≡ map (row_of read.now) read.now.keys) }
    ensures memory { IfErr result (λ e. e ≡ fault.Memory) }
{
    let mut asked = Vec::new(alloc);
    for key in read.keys.as_slice() {
        asked.push(read.row_of(key)?)?;
    }
    Ok(asked)
}
