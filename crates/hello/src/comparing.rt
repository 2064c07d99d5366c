//! Compares bytes.
ghost use Rattle.std.specs.Prelude.{◌≡◌, ◌↔◌, IsTrue};

/// Whether bytes are the same. It looks at all of them before it answers, so that the time that it takes says nothing
/// of where they differ; only another length is told at once.
pub fn same(a: &[u8], b: &[u8]) -> bool
    ensures { IsTrue result ↔ (a.now ≡ b.now) }
{
    if a.len() != b.len() {
        return false;
    }
    let mut differs = 0;
    for i in 0..a.len() {
        differs |= a[i] ^ b[i];
    }
    differs == 0
}
