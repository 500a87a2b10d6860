//! The words of a line, and the numbers, amounts and keys that they write.
ghost use Rattle.std.specs.Prelude.{◌==◌, slice_index, ◌≡◌, [], ◌∷◌, MatchOption, Some, None, ◌↔◌, IsTrue, IfSome, IfNone, IsUtf8};
ghost use Rattle.std.specs.List.{position, list_all};
ghost use Rattle.fkv_scripts.specs.Words.{words_of, is_space, number_of, amount_of, is_key_byte};
ghost use Rattle.fkv_scripts.specs.Reading.{Gives, first_as, key_of};

use fkv_functions::Name;
use std::marker::Model;
use std::str;

/// The words that are left of a line. A contract sees their list.
#[derive(Drop)]
pub struct Words<'a> {
    /// The bytes that are left, where a word is: after the last word there are none.
    rest: Option<&'a [u8]>,
}

impl<'a> Model for Words<'a> {
    ghost use Rattle.std.specs.Prelude.{◌==◌, slice_index, List, ℕ};
    ghost use Rattle.fkv_scripts.specs.Words.{words_left};

    ghost Value = { List (List ℕ) };

    ghost view = { λ w. words_left w.rest };
}

impl<'a> Words<'a> {
    /// The words of a line, which single spaces part.
    pub fn new(line: &'a [u8]) -> Words<'a>
        ensures { result ≡ words_of line.now }
    {
        Words { rest: Some(line) }
    }

    /// Takes the next word.
    pub fn next(&mut self) -> Option<&'a [u8]>
        ensures { MatchOption result (self.old ≡ []) (λ w. self.old ≡ w.now ∷ self.new) }
    {
        let rest = self.rest?;
        match first_space(rest) {
            Some(at) => {
                self.rest = Some(&rest[at + 1..]);
                Some(&rest[..at])
            }
            None => {
                self.rest = None;
                Some(rest)
            }
        }
    }

    /// Takes the next word, as a number.
    pub fn number(&mut self) -> Option<u64>
        ensures { Gives result (first_as number_of self.old) self.new }
    {
        let word = self.next()?;
        let number = number(word)?;
        Some(number)
    }

    /// Takes the next word, as a key.
    pub fn key(&mut self) -> Option<Name>
        ensures { Gives result (first_as key_of self.old) self.new }
    {
        let word = self.next()?;
        let key = key(word)?;
        Some(key)
    }

    /// Takes the next word, as an amount.
    pub fn amount(&mut self) -> Option<i64>
        ensures { Gives result (first_as amount_of self.old) self.new }
    {
        let word = self.next()?;
        let amount = amount(word)?;
        Some(amount)
    }

    /// Whether no word is left.
    pub fn is_empty(&self) -> bool
        ensures { IsTrue result ↔ (self.now ≡ []) }
    {
        self.rest.is_none()
    }
}

fn first_space(bytes: &[u8]) -> Option<usize>
    ensures { result ≡ position is_space bytes.now }
{
    bytes.iter().position(|b| *b == b' ')
}

/// A word as text; what is no text is no number.
fn text_of(word: &[u8]) -> Option<&str>
    ensures text { IfSome result (λ t. t.now ≡ word.now) }
    ensures none { IfNone result (IsUtf8 word.now → ⊥) }
{
    match str::from_utf8(word) {
        Ok(text) => Some(text),
        Err(_) => None,
    }
}

fn starts_with_plus(word: &[u8]) -> bool
    ensures { result ≡ (slice_index word.now 0 == 43) }
{
    match word {
        [b'+', ..] => true,
        _ => false,
    }
}

/// The number that a word writes: digits alone, since the parser of numbers would take a plus.
fn number(word: &[u8]) -> Option<u64>
    ensures { result ≡ number_of word.now }
{
    if starts_with_plus(word) {
        return None;
    }
    let Some(text) = text_of(word) else {
        return None;
    };
    match text.parse::<u64>() {
        Ok(number) => Some(number),
        Err(_) => None,
    }
}

/// The amount that a word writes.
fn amount(word: &[u8]) -> Option<i64>
    ensures { result ≡ amount_of word.now }
{
    let Some(text) = text_of(word) else {
        return None;
    };
    match text.parse::<i64>() {
        Ok(amount) => Some(amount),
        Err(_) => None,
    }
}

/// The key that a word is.
fn key(word: &[u8]) -> Option<Name>
    ensures { result ≡ key_of word.now }
{
    if !has_key_bytes(word) {
        return None;
    }
    Name::new(word)
}

fn is_key_byte(b: u8) -> bool
    ensures { result ≡ is_key_byte b }
{
    matches!(b, b'a'..=b'z' | b'A'..=b'Z' | b'0'..=b'9' | b'_' | b'-')
}

fn has_key_bytes(word: &[u8]) -> bool
    ensures { result ≡ list_all is_key_byte word.now }
{
    word.iter().all(|b| is_key_byte(*b))
}
