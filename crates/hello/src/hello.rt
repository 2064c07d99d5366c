//! Hellos.
ghost use Rattle.std.specs.Prelude.{◌≡◌, ◌≢◌, ◌≤◌, ◌+◌, ◌++◌, length, take, drop, IfSome, IfNone, Some};
ghost use Rattle.hello.specs.Hello.{spelled, IsHello};
ghost use Rattle.hello.specs.declared.hello.Hello as Declared;

/// What each of two processes sends first.
#[derive(Clone, Copy)]
pub struct Hello {
    /// Which version of the protocol it speaks.
    pub version: u16,
    /// The data centre that it is of.
    pub from: u16,
    /// The data centre that it is for.
    pub to: u16,
    /// Which process this is: drawn at its start, and not all zeros.
    pub incarnation: [u8; 16],
    /// Which process it knows at the other end, or zeros: none.
    pub known: [u8; 16],
    /// The digest of the file of sites.
    pub digest: [u8; 32],
    /// What was drawn for this connection alone.
    pub nonce: [u8; 32],
}

/// How many bytes a hello has.
const LONG: usize = 102;

/// Writes bytes over others, from a place on.
pub(crate) fn put(out: &mut [u8], at: usize, bytes: &[u8])
    requires { at + length bytes.now ≤ length out.old }
    ensures after { out.new ≡ take at out.old ++ bytes.now ++ drop (at + length bytes.now) out.old }
    ensures front { take (at + length bytes.now) out.new ≡ take at out.old ++ bytes.now }
{
    out[at..at + bytes.len()].copy_from_slice(bytes);
}

// So many bytes from a place on.
fn taken<const N: usize>(bytes: &[u8], at: usize) -> [u8; N]
    requires { at + N ≤ length bytes.now }
    ensures { result ≡ take N (drop at bytes.now) }
{
    let mut out = [0; N];
    out.copy_from_slice(&bytes[at..at + N]);
    out
}

impl Hello {
    /// The bytes of a hello: its fields in order, numbers with the most significant byte first.
    #[tactic(auto, unfolding(crate::specs::Hello::spelled))]
    pub fn write(&self) -> [u8; 102]
        ensures written { result ≡ spelled self.now }
        ensures is_hello { IsHello self.now }
    {
        let (version, from, to) = (self.version, self.from, self.to);
        let mut out = [0; LONG];
        put(&mut out, 0, &version.to_be_bytes());
        put(&mut out, 2, &from.to_be_bytes());
        put(&mut out, 4, &to.to_be_bytes());
        put(&mut out, 6, &self.incarnation);
        put(&mut out, 22, &self.known);
        put(&mut out, 38, &self.digest);
        put(&mut out, 70, &self.nonce);
        out
    }

    /// The hello that these bytes are, if they are as many as a hello has. Whether it may be answered says `check`.
    pub fn read(bytes: &[u8]) -> Option<Hello>
        ensures read_is_spelled { IfSome result (λ h. spelled h ≡ bytes.now) }
        ensures spelled_is_read { (h : Declared.Hello) → IsHello h → spelled h ≡ bytes.now → result ≡ Some h }
        ensures is_hello { IfSome result IsHello }
        ensures none { IfNone result (length bytes.now ≢ 102) }
    {
        if bytes.len() != LONG {
            return None;
        }
        Some(Hello {
            version: u16::from_be_bytes(taken(bytes, 0)),
            from: u16::from_be_bytes(taken(bytes, 2)),
            to: u16::from_be_bytes(taken(bytes, 4)),
            incarnation: taken(bytes, 6),
            known: taken(bytes, 22),
            digest: taken(bytes, 38),
            nonce: taken(bytes, 70),
        })
    }
}
