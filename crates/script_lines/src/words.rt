//! The words of a line.
ghost use Rattle.std.specs.Prelude.{◌≡◌, ◌∷◌, []};
ghost use Rattle.std.specs.Prelude.{MatchOption};
ghost use Rattle.script_lines.specs.Words.{words_between};

use std::marker::Model;

/// The words of a line that are still to be read. Contracts see them as a list.
#[derive(Drop)]
pub struct LineWords<'a> {
    // None after the last word.
    rest: Option<&'a [u8]>,
}

impl<'a> Model for LineWords<'a> {
    ghost use Rattle.std.specs.Prelude.{ℕ, List, []};
    ghost use Rattle.std.specs.Option.{option_map_or};
    ghost use Rattle.script_lines.specs.Words.{words_between};

    ghost Value = { List (List ℕ) };

    ghost view = { λ w. option_map_or (λ rest. words_between rest.now) w.rest [] };
}

impl<'a> LineWords<'a> {
    /// The words of a line.
    pub fn of(line: &'a [u8]) -> LineWords<'a>
        ensures { result ≡ words_between line.now }
    {
        LineWords { rest: Some(line) }
    }

    /// The same words, to be read apart.
    pub fn copy(&self) -> LineWords<'a>
        ensures { result ≡ self.now }
    {
        LineWords { rest: self.rest }
    }

    /// Takes the next word.
    pub fn take(&mut self) -> Option<&'a [u8]>
        ensures { MatchOption result ((self.old ≡ []) × (self.new ≡ [])) (λ word. self.old ≡ word.now ∷ self.new) }
    {
        let line = self.rest?;
        match line.iter().position(|byte| *byte == b' ') {
            Some(end) => {
                self.rest = Some(&line[end + 1..]);
                Some(&line[..end])
            }
            None => {
                self.rest = None;
                Some(line)
            }
        }
    }

    /// The rest of the line, which is all words that are still to be read with the blanks between them; `None` after the last.
    pub fn rest_of_line(self) -> Option<&'a [u8]>
        ensures { MatchOption result (self.entry ≡ []) (λ rest. self.entry ≡ words_between rest.now) }
    {
        self.rest
    }
}
