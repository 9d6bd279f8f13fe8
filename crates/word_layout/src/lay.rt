//! Lays objects in a row of words, as far as they fit in the words that a store may use.
ghost use Rattle.std.specs.Prelude.{◌≡◌, ℕ, ◌+◌, ◌-◌, ◌<◌, ◌≤◌, ◌++◌, length, take, drop, replicate, nat_le, slice_index};
ghost use Rattle.word_layout.specs.Words.{LaidIf, limit};

use crate::pack::InWords;

/// A store uses at most so many words.
pub const MAX_WORDS: usize = 65536;

/// How many of the words a store may use.
pub fn usable(words: &[u64]) -> usize
    ensures { result ≡ limit words.now }
{
    words.len().min(MAX_WORDS)
}

// Whether so many words fit from a place on.
fn fits(words: &[u64], at: usize, n: usize) -> bool
    ensures { result ≡ nat_le (at + n) (limit words.now) }
{
    usable(words).checked_sub(at).is_some_and(|left| n <= left)
}

/// Zeros from one place to another, as far as there are words.
pub fn clear(words: &mut [u64], from: usize, to: usize)
    ensures zeros { from ≤ to → to ≤ length words.old → words.new ≡ take from words.old ++ (replicate (to - from) 0 ++ drop to words.old) }
    ensures same { to ≤ from → words.new ≡ words.old }
{
    let end = to.min(words.len());
    if from < end {
        words[from..end].fill(0);
    }
}

// Writes the words behind an object's head.
fn write<O: InWords>(words: &mut [u64], object: O)
    requires { length words.old ≡ O.behind object }
    ensures { (j : ℕ) → j < O.behind object → O.is_word object j (slice_index words.new j) }
{
    for (k, word) in words.iter_mut().enumerate() {
        if let Some(w) = object.word(k) {
            *word = w;
        }
    }
}

/// Lays an object at a place, and tells how many words it takes; none, where they do not fit.
pub fn object<O: InWords>(words: &mut [u64], at: usize, object: O) -> Option<usize>
    ensures { LaidIf (O.head_word object) (O.behind object) (O.is_word object) words.old at words.new result }
{
    let n = object.size();
    let head = object.head()?;
    // A count below the limit keeps the sum in range.
    if n >= MAX_WORDS || !fits(words, at, 1 + n) {
        return None;
    }
    words[at] = head;
    write(&mut words[at + 1..at + 1 + n], object);
    Some(1 + n)
}
