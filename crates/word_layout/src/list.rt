//! How the elements of a list lie in words. All that knows of it stands in this file.
ghost use Rattle.std.specs.Prelude.{◌≡◌, ℕ, ◌<◌, length};
ghost use Rattle.std.proofs.Common.{to_z};
ghost use Rattle.std.specs.Int.{w32};
ghost use Rattle.word_layout.specs.Lists.{list_size, list_word, list_part, ListWord};
ghost use Rattle.word_layout.specs.Views.{table_at};

use store::TableAt;

/// What a list can hold: a value of 32 bits.
pub trait Element: Copy {
    ghost of: { ℕ → Self };

    ghost mark: { ℕ };

    /// What the low three bits of a list's head are.
    fn mark() -> u64
        ensures value { result ≡ mark }
        ensures bound { result < 8 };

    // Kept: `From` goes neither from `u32` to `i32` nor back, so the two conversions stand here.
    fn of_bits(bits: u32) -> Self
        ensures { result ≡ of bits };

    fn bits(self) -> u32
        ensures { of result ≡ self };
}

impl Element for TableAt {
    ghost of = { table_at };

    ghost mark = { 2 };

    fn mark() -> u64 {
        2
    }

    fn of_bits(bits: u32) -> TableAt {
        TableAt(bits)
    }

    fn bits(self) -> u32 {
        self.0
    }
}

impl Element for i32 {
    ghost of = { to_z w32 };

    ghost mark = { 3 };

    fn mark() -> u64 {
        3
    }

    fn of_bits(bits: u32) -> i32 {
        bits.cast_signed()
    }

    fn bits(self) -> u32 {
        self.cast_unsigned()
    }
}

/// How many words so many elements take.
#[tactic(auto, unfolding(crate::specs::Lists::list_size))]
pub fn list_words(count: usize) -> usize
    ensures { result ≡ list_size count }
{
    count
}

/// In which of these words an element is.
#[tactic(auto, unfolding(crate::specs::Lists::list_word))]
pub fn word_of(i: usize) -> usize
    ensures { result ≡ list_word i }
{
    i
}

/// The bits of an element in its word.
#[tactic(auto, unfolding(crate::specs::Lists::list_part))]
pub fn part_of(word: u64, i: usize) -> u32
    ensures { result ≡ list_part i word }
{
    (word % 4294967296) as u32
}

/// A word of a list.
#[tactic(auto, using(crate::proofs::Listing::list_small, crate::proofs::Listing::list_holds))]
pub(crate) fn list_word<E: Element>(list: &[E], k: usize) -> u64
    requires { k < list_size (length list.now) }
    ensures { ListWord E.Element.of list.now k result }
{
    u64::from(list[k].bits())
}
