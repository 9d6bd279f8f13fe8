//! A store that is read and written, over the caller's words from the front.
ghost use Rattle.std.specs.Prelude.{◌≡◌, ◌+◌, ◌*◌, take};
ghost use Rattle.store.specs.State.{Fresh};
ghost use Rattle.word_layout.specs.Words.{words_meaning, words_state, limit, used_words, LaidBehind};
ghost use Rattle.word_layout.proofs.Rows.{rows_sound, rows_typed};

use crate::view::WordView;
use kinds::Kind;
use store::filled::{slots_fit, tables_fit};
use store::{ListAt, ReadStore, Slot, StoreRefusal, TableAt, TextAt, WriteStore};
use word_layout::lay;
use word_layout::pack::{InWords, List, Table, Text};

/// Objects laid one behind the other in the caller's words, at most 65,536 of them. A place is the number of an object's first word.
// Kept: a buffer and how much of it is used, since a store takes no memory but the words that its caller lends. The members
// of the traits speak of every value, so they say for any count what is used, and no field does.
#[derive(Drop)]
pub struct WordStore<'a> {
    words: &'a mut [u64],
    used: usize,
}

// What an object costs that has so many words behind its head.
fn price(behind: usize) -> u128
    ensures { result ≡ 8 * (1 + behind) }
{
    8 * (1 + behind as u128)
}

impl<'a> WordStore<'a> {
    /// A store over these words: all of them room, as far as the limit goes, and zero.
    pub fn new(words: &'a mut [u64]) -> WordStore<'a>
        ensures { Fresh (words_state result.words.now result.used) (8 * limit words.old) }
    {
        let n = lay::usable(words);
        lay::clear(words, 0, n);
        WordStore { words, used: 0 }
    }

    /// The words that are used, for as long as the caller lent them.
    pub fn into_used(self) -> &'a [u64]
        ensures { result.now ≡ take (used_words self.entry.words.now self.entry.used) self.entry.words.now }
    {
        let n = self.len();
        let WordStore { words, used: _ } = self;
        &words[..n]
    }

    // How many words are used.
    fn len(&self) -> usize
        ensures { result ≡ used_words self.now.words.now self.now.used }
    {
        self.used.min(lay::usable(self.words))
    }

    // The used words, to be read.
    fn view(&self) -> WordView<'_>
        ensures { result.words.now ≡ take (used_words self.now.words.now self.now.used) self.now.words.now }
    {
        WordView {
            words: &self.words[..self.len()],
        }
    }

    // Lays an object behind the used words, and tells its place; where it does not fit, its price.
    fn put<O: InWords>(&mut self, object: O) -> Result<u32, StoreRefusal>
        ensures { LaidBehind (O.head_word object) (O.behind object) (O.is_word object) self.old.words.now self.old.used self.new.words.now self.new.used result }
    {
        let at = self.len();
        let Some(n) = lay::object(self.words, at, object) else {
            return Err(StoreRefusal::RoomTooSmall(price(object.size())));
        };
        self.used = at + n;
        Ok(at as u32)
    }
}

impl<'a> ReadStore for WordStore<'a> {
    ghost meaning = { λ s. words_meaning (take (used_words s.words.now s.used) s.words.now) };

    ghost typed = { λ s. rows_typed (take (used_words s.words.now s.used) s.words.now) };

    fn text_len(&self, at: TextAt) -> Option<usize> {
        self.view().text_len(at)
    }

    fn text_byte(&self, at: TextAt, i: usize) -> Option<u8> {
        self.view().text_byte(at, i)
    }

    fn tables_len(&self, at: ListAt) -> Option<usize> {
        self.view().tables_len(at)
    }

    fn table_in(&self, at: ListAt, i: usize) -> Option<TableAt> {
        self.view().table_in(at, i)
    }

    fn numbers_len(&self, at: ListAt) -> Option<usize> {
        self.view().numbers_len(at)
    }

    fn number_in(&self, at: ListAt, i: usize) -> Option<i32> {
        self.view().number_in(at, i)
    }

    fn has_table(&self, kind: Kind, at: TableAt) -> bool {
        self.view().has_table(kind, at)
    }

    fn slot(&self, kind: Kind, at: TableAt, i: usize) -> Option<Slot> {
        self.view().slot(kind, at, i)
    }
}

impl<'a> WriteStore for WordStore<'a> {
    ghost state = { λ s. words_state s.words.now s.used };

    ghost sound = { λ s. rows_sound s.words.now s.used };

    fn height(&self) -> usize {
        8 * self.len()
    }

    fn room(&self) -> usize {
        8 * (lay::usable(self.words) - self.len())
    }

    fn text_price(&self, bytes: &[u8]) -> u128 {
        price(Text(bytes).size())
    }

    fn tables_price(&self, _kind: Kind, tables: &[TableAt]) -> u128 {
        price(List(tables).size())
    }

    fn numbers_price(&self, numbers: &[i32]) -> u128 {
        price(List(numbers).size())
    }

    fn table_price(&self, kind: Kind, _slots: &[Slot]) -> u128 {
        price(kind.slots().len())
    }

    fn put_text(&mut self, bytes: &[u8]) -> Result<TextAt, StoreRefusal> {
        self.put(Text(bytes)).map(TextAt)
    }

    fn put_tables(&mut self, kind: Kind, tables: &[TableAt]) -> Result<ListAt, StoreRefusal> {
        if !tables_fit(self, kind, tables) {
            return Err(StoreRefusal::Misfilled);
        }
        self.put(List(tables)).map(ListAt)
    }

    fn put_numbers(&mut self, numbers: &[i32]) -> Result<ListAt, StoreRefusal> {
        self.put(List(numbers)).map(ListAt)
    }

    fn put_table(&mut self, kind: Kind, slots: &[Slot]) -> Result<TableAt, StoreRefusal> {
        if !slots_fit(self, kind, slots) {
            return Err(StoreRefusal::Misfilled);
        }
        // The slots are as many as the kind has, since they fit it.
        self.put(Table::new(kind, slots).unwrap()).map(TableAt)
    }

    fn cut(&mut self, height: usize) {
        let used = self.len();
        if height <= 8 * used && height % 8 == 0 {
            lay::clear(self.words, height / 8, used);
            self.used = height / 8;
        }
    }
}
