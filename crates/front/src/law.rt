//! A law of what is served.
ghost use Rattle.std.specs.Prelude.{◌≡◌, ℕ, List};
ghost use Rattle.messages.specs.declared.op.Op.{Op};
ghost use Rattle.wire.specs.Frames.{waits, faulty, front_of, NoneFirst};
ghost use Rattle.logical_time.specs.declared.fault.Fault.{Fault};
ghost use Rattle.front.specs.Served.{Begins};

/// Bytes spell one list of requests: where no request stands first in the rest, as where it waits for more or has a
/// fault, there is no other list, and no other rest. Does nothing; its contract is the law.
pub fn bytes_spell_one_list()
    ensures one { (bytes : List ℕ) (xs ys : List Op) (a b : List ℕ) → Begins bytes xs a → Begins bytes ys b → NoneFirst a → NoneFirst b → (xs ≡ ys) × (a ≡ b) }
    ensures waiting { (rest : List ℕ) → front_of rest ≡ waits → NoneFirst rest }
    ensures faulty { (rest : List ℕ) (f : Fault) → front_of rest ≡ faulty f → NoneFirst rest }
{}
