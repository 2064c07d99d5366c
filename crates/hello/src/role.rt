//! The two ends of a connection.
ghost use Rattle.std.specs.Prelude.{◌≡◌};
ghost use Rattle.hello.specs.Meeting.{role_byte};

/// An end of a connection.
#[derive(Clone, Copy)]
pub enum Role {
    /// The one that connects.
    Connecting,
    /// The one that accepts.
    Accepting,
}

impl Role {
    /// Its byte in what codes are made of.
    pub(crate) fn byte(self) -> u8
        ensures { result ≡ role_byte self }
    {
        match self {
            Role::Connecting => 1,
            Role::Accepting => 2,
        }
    }
}
