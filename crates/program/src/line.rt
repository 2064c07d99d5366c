//! Lines of text.
ghost use Rattle.std.specs.Prelude.{◌≡◌, true, false, IfSome, IsNone, string_bytes};
ghost use Rattle.program.specs.Lines.{has_end};

use std::marker::Model;

/// One line of text, without its end.
#[derive(Drop)]
pub struct Line {
    text: String,
}

impl Model for Line {
    ghost use Rattle.std.specs.Prelude.{◌≡◌, ℕ, List, false, string_bytes};
    ghost use Rattle.program.specs.Lines.{has_end};

    ghost Value = { List ℕ };

    ghost view = { λ line. string_bytes line.text };

    ghost invariant = { λ line. has_end (string_bytes line.text) ≡ false };
}

impl Line {
    /// The text as a line; none where a line ends in it. Linear in the text.
    pub fn new(text: String) -> Option<Line>
        ensures line { IfSome result (λ line. line ≡ string_bytes text) }
        ensures none { IsNone result → has_end (string_bytes text) ≡ true }
    {
        if text.as_bytes().contains(&b'\n') {
            return None;
        }
        Some(Line { text })
    }

    /// Its text.
    pub fn as_str(&self) -> &str
        ensures text { result.now ≡ self.now }
        ensures line { has_end result.now ≡ false }
    {
        self.text.as_str()
    }
}
