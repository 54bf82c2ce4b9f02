ghost use Rattle.std.specs.Prelude.{◌≡◌, ◌==◌, position};

use std::marker::Model;

/// Where the byte first stands in the text.
pub(crate) fn position_of(separator: u8, text: &[u8]) -> Option<usize>
    ensures { result ≡ position (λ byte. byte == separator) text.now }
{
    text.iter().position(|byte| *byte == separator)
}

/// The words of a text that a separator leaves, from the next one on. std's `split` has a closure
/// in its type, and `Arguments` holds this.
#[derive(Drop)]
pub(crate) struct Split<'a> {
    separator: u8,
    rest: &'a [u8],
    is_done: bool,
}

impl<'a> Model for Split<'a> {
    ghost use Rattle.std.specs.Prelude.{ℕ, List};
    ghost use Rattle.ck_script.specs.Splits.{words_left};

    ghost Value = { List (List ℕ) };

    ghost view = { λ p. words_left p.separator p.is_done p.rest.now };
}

impl<'a> Split<'a> {
    ghost use Rattle.std.specs.Prelude.{◌≡◌, ◌==◌, ◌∷◌, [], length, MatchOption, option_map};
    ghost use Rattle.std.specs.Option.{option_copied};
    ghost use Rattle.ck_script.specs.Splits.{words_of, one_of, two_of, three_of, four_of};

    /// All words of the text.
    pub(crate) fn new(text: &'a [u8], separator: u8) -> Split<'a>
        ensures { result ≡ words_of separator text.now }
    {
        Split {
            separator,
            rest: text,
            is_done: false,
        }
    }

    /// Takes off the next word.
    pub(crate) fn next(&mut self) -> Option<&'a [u8]>
        ensures { MatchOption result ((self.old ≡ []) × (self.new ≡ []))
            (λ word. self.old ≡ word.now ∷ self.new) }
    {
        if self.is_done {
            return None;
        }
        let rest = self.rest;
        match position_of(self.separator, rest) {
            Some(end) => {
                self.rest = &rest[end + 1..];
                Some(&rest[..end])
            }
            None => {
                self.is_done = true;
                Some(rest)
            }
        }
    }

    /// Whether one of the words that are left has no bytes.
    pub(crate) fn has_empty(mut self) -> bool {
        while let Some(word) = self.next() {
            if word.is_empty() {
                return true;
            }
        }
        false
    }

    /// Whether no word is left.
    pub(crate) fn is_empty(mut self) -> bool
        ensures { result ≡ (length self.entry == 0) }
    {
        self.next().is_none()
    }

    /// The word, where exactly one is left.
    pub(crate) fn one(mut self) -> Option<&'a [u8]>
        ensures { option_copied result ≡ one_of self.entry }
    {
        match (self.next(), self.next()) {
            (Some(first), None) => Some(first),
            _ => None,
        }
    }

    /// The words, where exactly two are left.
    pub(crate) fn two(mut self) -> Option<(&'a [u8], &'a [u8])>
        ensures { option_map (λ words. (words.0.now, words.1.now)) result ≡ two_of self.entry }
    {
        match (self.next(), self.next(), self.next()) {
            (Some(first), Some(second), None) => Some((first, second)),
            _ => None,
        }
    }

    /// The words, where exactly three are left.
    pub(crate) fn three(mut self) -> Option<(&'a [u8], &'a [u8], &'a [u8])>
        ensures { option_map (λ words. (words.0.now, words.1.now, words.2.now)) result
            ≡ three_of self.entry }
    {
        match (self.next(), self.next(), self.next(), self.next()) {
            (Some(first), Some(second), Some(third), None) => Some((first, second, third)),
            _ => None,
        }
    }

    /// The words, where exactly four are left.
    pub(crate) fn four(mut self) -> Option<(&'a [u8], &'a [u8], &'a [u8], &'a [u8])>
        ensures { option_map (λ words. (words.0.now, words.1.now, words.2.now, words.3.now)) result
            ≡ four_of self.entry }
    {
        match (
            self.next(),
            self.next(),
            self.next(),
            self.next(),
            self.next(),
        ) {
            (Some(first), Some(second), Some(third), Some(fourth), None) => {
                Some((first, second, third, fourth))
            }
            _ => None,
        }
    }
}
