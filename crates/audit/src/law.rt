//! What a right answer is.
ghost use Rattle.std.specs.Prelude.{◌≡◌, ◌↔◌, ℕ, true, List, Some};
ghost use Rattle.column_family.specs.History.{History};
ghost use Rattle.slice.specs.declared.read.Read.{Read};
ghost use Rattle.slice.specs.declared.read.AnsweredRow.{AnsweredRow};
ghost use Rattle.table.specs.Meaning.{meaning};
ghost use Rattle.messages.specs.declared.op.Op.TheVariants as op;
ghost use Rattle.audit.specs.Audit.{is_right};

/// The answer of a read passes exactly if it is the meaning of the read on the history at the time. Does nothing; its
/// contract is the law.
pub fn right_answers_are_the_meaning()
    ensures { (h : History) (read : Read) (time : ℕ) (answer : List AnsweredRow) → (is_right (Some h) (op.Read read) time answer ≡ true) ↔ (answer ≡ meaning read h time) }
{}
