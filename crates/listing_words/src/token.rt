//! The words, numbers and quoted texts of a line.
ghost use Rattle.std.specs.Prelude.{◌≡◌, ℕ, List, ◌<◌, ◌≤◌, [], ◌∷◌, ◌++◌, length, IsTrue, Decides, IfSome, MatchOption, OnOk, ◌≢◌, slice_index};
ghost use Rattle.listing_words.specs.Tokens.{kind_of, hex_value, Passes, Grown};

use crate::fault::LineFault;
use std::str::{FromStr, from_utf8};

/// What a byte is to a line: part of a space, of a word, or a mark that stands alone.
#[derive(Clone, Copy, PartialEq)]
enum Kind {
    Space,
    Word,
    Mark,
}

// A sign belongs to the number behind it, so it counts as part of a word.
fn byte_kind(b: u8) -> Kind
    ensures { result ≡ kind_of b }
{
    match b {
        b' ' | b'\t' | b'\r' => Kind::Space,
        b'-' | b'0'..=b'9' | b'A'..=b'Z' | b'a'..=b'z' => Kind::Word,
        _ => Kind::Mark,
    }
}

// How many bytes at the front are of one kind.
// Kept: the kind is a value to compare with; a closure would say `run(|b| byte_kind(b) == Kind::Word)` for `run(Kind::Word)`.
fn run_len(s: &[u8], k: Kind) -> usize
    ensures within { result ≤ length s.now }
    ensures all { (i : ℕ) → i < result → kind_of (slice_index s.now i) ≡ k }
    ensures stops { result < length s.now → kind_of (slice_index s.now result) ≢ k }
{
    s.iter().position(|b| byte_kind(*b) != k).unwrap_or(s.len())
}

// What a hexadecimal digit stands for, in either case.
fn hex_digit(b: u8) -> Option<u8>
    ensures value { result ≡ hex_value b }
    ensures bound { IfSome result (λ d. d < 16) }
{
    (b as char).to_digit(16).map(|d| d as u8)
}

/// What was not read yet of a line.
#[derive(Drop)]
pub struct Cursor<'a> {
    rest: &'a [u8],
}

impl<'a> Cursor<'a> {
    pub fn new(line: &'a [u8]) -> Cursor<'a> {
        Cursor { rest: line }
    }

    // The next byte, which is then read.
    fn next_byte(&mut self) -> Option<u8>
        ensures { MatchOption result (self.new ≡ self.old) (λ b. self.old.rest.now ≡ b ∷ self.new.rest.now) }
    {
        let (b, rest) = self.rest.split_first()?;
        self.rest = rest;
        Some(*b)
    }

    // Reads a run of bytes of one kind.
    fn run(&mut self, k: Kind) -> &'a [u8]
        ensures { self.old.rest.now ≡ result.now ++ self.new.rest.now }
    {
        let (run, rest) = self.rest.split_at(run_len(self.rest, k));
        self.rest = rest;
        run
    }

    /// The next word, or an empty one where no word stands next. Spaces before it are free.
    pub fn word(&mut self) -> &'a [u8]
        ensures { Passes self.old.rest.now result.now self.new.rest.now }
    {
        let _spaces = self.run(Kind::Space);
        self.run(Kind::Word)
    }

    /// Reads a mark if it stands next. Spaces before it are free.
    pub fn takes(&mut self, mark: u8) -> bool
        ensures { IsTrue result → Passes self.old.rest.now (mark ∷ []) self.new.rest.now }
    {
        let _spaces = self.run(Kind::Space);
        match self.rest.split_first() {
            Some((b, rest)) if *b == mark => {
                self.rest = rest;
                true
            }
            _ => false,
        }
    }

    /// Reads a mark that has to stand next.
    pub fn expect(&mut self, mark: u8, fault: LineFault) -> Result<(), LineFault>
        ensures { OnOk result (Passes self.old.rest.now (mark ∷ []) self.new.rest.now) }
    {
        if self.takes(mark) { Ok(()) } else { Err(fault) }
    }

    /// Whether nothing but spaces is left.
    pub fn at_end(&mut self) -> bool
        ensures { Decides result (self.new.rest.now ≡ []) }
    {
        let _spaces = self.run(Kind::Space);
        self.rest.is_empty()
    }

    /// Reads the end of the line, which has to come next. Spaces before it are free.
    pub fn expect_end(&mut self) -> Result<(), LineFault>
        ensures { OnOk result (self.new.rest.now ≡ []) }
    {
        if self.at_end() {
            Ok(())
        } else {
            Err(LineFault::Trailing)
        }
    }

    /// A number of the width that the caller wants.
    pub fn number<N: FromStr>(&mut self) -> Result<N, LineFault>
    where
        N::Err: Drop,
    {
        let word = from_utf8(self.word()).map_err(|_| LineFault::NumberWanted)?;
        word.parse().map_err(|_| LineFault::NumberWanted)
    }

    // The byte that two hexadecimal digits stand for.
    fn hex_byte(&mut self) -> Option<u8>
        ensures shorter { length self.new.rest.now ≤ length self.old.rest.now }
    {
        let high = hex_digit(self.next_byte()?)?;
        let low = hex_digit(self.next_byte()?)?;
        Some(high * 16 + low)
    }

    // What stands behind a backslash.
    fn escape(&mut self) -> Result<u8, LineFault>
        ensures shorter { length self.new.rest.now ≤ length self.old.rest.now }
    {
        match self.next_byte() {
            Some(b @ (b'"' | b'\\')) => Ok(b),
            Some(b'x') => self.hex_byte().ok_or(LineFault::Escape),
            _ => Err(LineFault::Escape),
        }
    }

    // The next byte of a text, or none at the quote that ends it.
    fn letter(&mut self) -> Result<Option<u8>, LineFault>
        ensures shorter { OnOk result (length self.new.rest.now < length self.old.rest.now) }
    {
        match self.next_byte().ok_or(LineFault::OpenText)? {
            b'"' => Ok(None),
            b'\\' => self.escape().map(Some),
            b => Ok(Some(b)),
        }
    }

    /// Adds the bytes of a quoted text to those that the line's earlier texts gave.
    pub fn quoted(&mut self, into: &mut Vec<u8>) -> Result<(), LineFault>
        ensures { Grown into.old.items into.new.items }
    {
        self.expect(b'"', LineFault::TextWanted)?;
        while let Some(b) = self.letter()? {
            into.push(b)?;
        }
        Ok(())
    }
}
