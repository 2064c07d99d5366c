//! Laws of what codes are made of.
ghost use Rattle.std.specs.Prelude.{◌≡◌, ◌<◌, ◌^◌, ℕ, List, length};
ghost use Rattle.hello.specs.declared.hello.Hello.{Hello};
ghost use Rattle.hello.specs.declared.role.Role.{Role};
ghost use Rattle.hello.specs.Hello.{spelled, IsHello};
ghost use Rattle.hello.specs.Mac.{hmac};
ghost use Rattle.hello.specs.Meeting.{proof_message, key_message, tag_message};
ghost use Rattle.hello.specs.Worked as worked;

/// Each hello has its own bytes, all of one length. Does nothing; its contract is the law.
pub fn what_is_spelled_is_one_hello()
    ensures long { (h : Hello) → IsHello h → length (spelled h) ≡ 102 }
    ensures one { (g h : Hello) → IsHello g → IsHello h → spelled g ≡ spelled h → g ≡ h }
{}

/// What a proof is made of says whose it is and both hellos. Does nothing; its contract is the law.
pub fn proofs_are_of_one_meeting()
    ensures { (r s : Role) (c a d b : Hello) → IsHello c → IsHello a → IsHello d → IsHello b → proof_message r c a ≡ proof_message s d b → (r ≡ s) × (c ≡ d) × (a ≡ b) }
{}

/// What a key is made of says both hellos. Does nothing; its contract is the law.
pub fn keys_are_of_one_meeting()
    ensures { (c a d b : Hello) → IsHello c → IsHello a → IsHello d → IsHello b → key_message c a ≡ key_message d b → (c ≡ d) × (a ≡ b) }
{}

/// No proof is made of what a key is made of. Does nothing; its contract is the law.
pub fn no_proof_is_of_a_key()
    ensures { (r : Role) (c a d b : Hello) → ¬ (proof_message r c a ≡ key_message d b) }
{}

/// What a tag is made of says whose frame it is, its number and the frame. Does nothing; its contract is the law.
pub fn tags_are_of_one_frame()
    ensures { (r s : Role) (n m : ℕ) (f g : List ℕ) → n < 2 ^ 64 → m < 2 ^ 64 → tag_message r n f ≡ tag_message s m g → (r ≡ s) × (n ≡ m) × (f ≡ g) }
{}

/// Worked codes, byte by byte, under a key shorter and a key longer than a block. Does nothing; its contract is the law.
pub fn worked_codes()
    ensures short { hmac worked.key worked.message ≡ worked.code }
    ensures long { hmac worked.long_key worked.long_message ≡ worked.long_code }
{}
