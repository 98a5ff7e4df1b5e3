//! The lines of a block that say something, one after the other.

ghost use Rattle.std.specs.Prelude.{◌≡◌, [], ◌∷◌, MatchOption};
ghost use Rattle.dependence_audit.specs.Contents.{contents};

use std::marker::Model;
use suite_base::{Text, content_line};

/// The lines that are still to come. Contracts see what they say, without those that say nothing.
#[derive(Drop)]
pub struct ContentLines<'a> {
    left: &'a [Text],
}

impl<'a> Model for ContentLines<'a> {
    ghost use Rattle.std.specs.Prelude.{List, ℕ};
    ghost use Rattle.dependence_audit.specs.Contents.{contents};

    ghost Value = { List (List ℕ) };

    ghost view = { λ c. contents c.left.now };
}

impl<'a> ContentLines<'a> {
    /// All of these lines.
    pub fn new(lines: &'a [Text]) -> ContentLines<'a>
        ensures { result ≡ contents lines.now }
    {
        ContentLines { left: lines }
    }

    /// Takes the next line that says something, without its comment and the blanks around it.
    pub fn next(&mut self) -> Option<&'a [u8]>
        ensures { MatchOption result ((self.old ≡ []) × (self.new ≡ [])) (λ line. self.old ≡ line.now ∷ self.new) }
    {
        let mut left = self.left;
        while let [first, rest @ ..] = left {
            left = rest;
            let said = content_line(first.bytes());
            if !said.is_empty() {
                self.left = left;
                return Some(said);
            }
        }
        self.left = left;
        None
    }
}
