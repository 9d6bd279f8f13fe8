//! Words that are only read, as a store. Any place may be asked of.
ghost use Rattle.std.specs.Prelude.{◌≡◌, length, drop, nat_lt, slice_index};
ghost use Rattle.std.specs.Option.{option_map};
ghost use Rattle.store.specs.Meaning.{picked};
ghost use Rattle.word_layout.specs.Views.{standing, seen, text_view, list_view, table_view};
ghost use Rattle.word_layout.specs.Words.{words_meaning};
ghost use Rattle.word_layout.proofs.Rows.{rows_typed};

use kinds::Kind;
use store::{ListAt, ReadStore, Slot, TableAt, TextAt};
use word_layout::list::{Element, list_words, part_of, word_of};
use word_layout::pack::{mark_of, slot_in};

/// Used words of a store, read where they lie.
#[derive(Clone, Copy)]
pub struct WordView<'a> {
    pub words: &'a [u64],
}

impl<'a> WordView<'a> {
    // The word at a place, and 0 past the end.
    fn head(&self, at: u32) -> u64
        ensures { result ≡ slice_index (drop at self.now.words.now) 0 }
    {
        self.words.get(at as usize).copied().unwrap_or(0)
    }

    // Whether so many words come behind the one at a place.
    fn reaches(&self, at: u32, size: u64) -> bool
        ensures { result ≡ nat_lt size (length (drop at self.now.words.now)) }
    {
        size < self.words.len().saturating_sub(at as usize) as u64
    }

    fn text_head(&self, at: u32) -> Option<u64>
        ensures { result ≡ standing text_view (drop at self.now.words.now) }
    {
        let head = self.head(at);
        let whole = head % 8 == 1 && self.reaches(at, (head / 8).div_ceil(8));
        whole.then_some(head)
    }

    fn list_head<E: Element>(&self, at: u32) -> Option<u64>
        ensures { result ≡ standing (list_view E.Element.of E.Element.mark) (drop at self.now.words.now) }
    {
        let head = self.head(at);
        let size = list_words((head / 8) as usize) as u64;
        let whole = head % 8 == E::mark() && self.reaches(at, size);
        whole.then_some(head)
    }

    fn table_head(&self, kind: Kind, at: u32) -> Option<u64>
        ensures { result ≡ standing (table_view kind) (drop at self.now.words.now) }
    {
        let head = self.head(at);
        let size = kind.slots().len() as u64;
        let whole = head % 256 == mark_of(kind) && self.reaches(at, size);
        whole.then_some(head)
    }

    /// How many elements a list has, of tables or of numbers.
    pub fn list_len<E: Element>(&self, at: ListAt) -> Option<usize>
        ensures { result ≡ option_map length (seen (list_view E.Element.of E.Element.mark) (drop at.0 self.now.words.now)) }
    {
        self.list_head::<E>(at.0).map(|head| (head / 8) as usize)
    }

    /// An element of a list.
    pub fn list_element<E: Element>(&self, at: ListAt, i: usize) -> Option<E>
        ensures { result ≡ picked (seen (list_view E.Element.of E.Element.mark) (drop at.0 self.now.words.now)) i }
    {
        let head = self.list_head::<E>(at.0)?;
        if i as u64 >= head / 8 {
            return None;
        }
        let word = self.words[at.0 as usize + 1 + word_of(i)];
        Some(E::of_bits(part_of(word, i)))
    }
}

impl<'a> ReadStore for WordView<'a> {
    ghost meaning = { λ s. words_meaning s.words.now };

    ghost typed = { λ s. rows_typed s.words.now };

    fn text_len(&self, at: TextAt) -> Option<usize> {
        self.text_head(at.0).map(|head| (head / 8) as usize)
    }

    fn text_byte(&self, at: TextAt, i: usize) -> Option<u8> {
        let head = self.text_head(at.0)?;
        if i as u64 >= head / 8 {
            return None;
        }
        let word = self.words[at.0 as usize + 1 + i / 8];
        Some(word.to_le_bytes()[i % 8])
    }

    fn tables_len(&self, at: ListAt) -> Option<usize> {
        self.list_len::<TableAt>(at)
    }

    fn table_in(&self, at: ListAt, i: usize) -> Option<TableAt> {
        self.list_element(at, i)
    }

    fn numbers_len(&self, at: ListAt) -> Option<usize> {
        self.list_len::<i32>(at)
    }

    fn number_in(&self, at: ListAt, i: usize) -> Option<i32> {
        self.list_element(at, i)
    }

    fn has_table(&self, kind: Kind, at: TableAt) -> bool {
        self.table_head(kind, at.0).is_some()
    }

    fn slot(&self, kind: Kind, at: TableAt, i: usize) -> Option<Slot> {
        let head = self.table_head(kind, at.0)?;
        let sort = *kind.slots().get(i)?;
        let word = self.words[at.0 as usize + 1 + i];
        Some(slot_in(head, i, sort, word))
    }
}
