//! Answers to command lines that ask for no run.
ghost use Rattle.std.specs.Prelude.{◌≡◌};
ghost use Rattle.command_line.specs.Told.{Answers};

use program::{Buffered, Output, tell};

/// The answer to a command line that asks for no run.
#[derive(Drop)]
pub enum Told {
    /// Help that was asked for.
    Help(String),
    /// Why a command line is refused.
    Refused(String),
}

impl Told {
    /// Writes help to the output, and a reason to `errors`. Gives the exit status: 0 for help, 1 after the fault
    /// `WriteFailed` was told, 2 for a refused command line.
    pub fn answer<W: Buffered, E: Buffered>(
        &self,
        output: &mut Output<W>,
        errors: &mut Output<E>,
    ) -> u8
        ensures { Answers W.contents E.contents self.now result output.old output.new errors.old errors.new }
    {
        match self {
            Told::Help(text) => match output.write_all(text.as_bytes()) {
                Ok(()) => 0,
                Err(fault) => tell(errors, fault, None),
            },
            Told::Refused(text) => {
                let _ = errors.write_all(text.as_bytes());
                2
            }
        }
    }
}
