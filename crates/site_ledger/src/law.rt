//! Laws of the texts of records.
ghost use Rattle.std.specs.Prelude.{◌≡◌, ℕ, List};
ghost use Rattle.site_ledger.specs.Entries.{IsTextOf, IsNumbered};
ghost use Rattle.site_ledger.specs.declared.entry.Entry.{Entry};

/// A text is of one entry at most, so of one kind. Does nothing; its contract is the law.
pub fn texts_are_of_one_entry()
    ensures { (a b : Entry) (text : List ℕ) → IsNumbered a → IsNumbered b → IsTextOf a text → IsTextOf b text → a ≡ b }
{}
