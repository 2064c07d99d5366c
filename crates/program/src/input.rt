//! What the program reads.
ghost use Rattle.std.specs.Prelude.{◌≡◌, ◌⊎◌, IsSome, IfSome, IfOk, IfErr, IsErr};
ghost use Rattle.logical_time.specs.declared.fault.Fault.TheVariants as fault;
ghost use Rattle.program.specs.Inputs.{bytes_left};

use logical_time::Fault;
use std::alloc::Global;
use std::io;
use std::io::{ErrorKind, Read};

/// A reader with the name by which people know it.
#[derive(Drop)]
pub struct Input<R> {
    /// Its name.
    pub name: String,
    /// The reader, if it could be opened.
    pub reader: Option<R>,
    /// Why it failed, if it did. After that nothing is read.
    pub failure: Option<io::Error>,
}

impl<R: Read> Input<R> {
    /// What was opened under this name. It has failed if that did.
    pub fn new(name: String, opened: io::Result<R>) -> Input<R>
        ensures opened { IfOk opened (λ r. result.reader ≡ Some r) }
        ensures failed { IsErr opened → IsSome result.failure }
    {
        match opened {
            Ok(reader) => Input {
                name,
                reader: Some(reader),
                failure: None,
            },
            Err(error) => Input {
                name,
                reader: None,
                failure: Some(error),
            },
        }
    }

    /// All bytes that are left. Refused with `ReadFailed` exactly where it has failed, and with `Memory`.
    pub fn read_all(&mut self, alloc: Global) -> Result<Vec<u8>, Fault>
        ensures whole { IfOk result (λ bytes. IfSome (bytes_left R.remaining self.old) (λ left. bytes.items ≡ left)) }
        ensures causes { IfErr result (λ e. (e ≡ fault.Memory) ⊎ ((e ≡ fault.ReadFailed) × IsSome self.new.failure)) }
        ensures failed { IsSome self.old.failure → result ≡ Err fault.ReadFailed }
    {
        if self.failure.is_some() {
            return Err(Fault::ReadFailed);
        }
        let mut bytes = Vec::new(alloc);
        let Some(reader) = &mut self.reader else {
            return Ok(bytes);
        };
        match reader.read_to_end(&mut bytes) {
            Ok(_) => Ok(bytes),
            Err(error) if error.kind() == ErrorKind::OutOfMemory => Err(Fault::Memory),
            Err(error) => {
                self.failure = Some(error);
                Err(Fault::ReadFailed)
            }
        }
    }
}
