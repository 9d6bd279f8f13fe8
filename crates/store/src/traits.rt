//! What may be asked of every store, and what may be put in a store that is written.
ghost use Rattle.std.specs.Prelude.{◌≡◌, length, is_some};
ghost use Rattle.std.specs.Option.{option_map};
ghost use Rattle.store.specs.Meaning.{Meaning, Typed, picked, the_text, the_tables, the_numbers, the_table};
ghost use Rattle.store.specs.State.{State, Sound, Put, Cut, held, room};

use crate::place::{ListAt, Slot, TableAt, TextAt};
use crate::refusal::StoreRefusal;
use kinds::Kind;

/// A store that can be read. Each question tells what stands, and none where nothing of the sort asked stands.
pub trait ReadStore {
    ghost meaning: { Self → Meaning };

    ghost typed: { (s : Self) → Typed (meaning s) };

    /// How many bytes a text has.
    fn text_len(&self, at: TextAt) -> Option<usize>
        ensures { result ≡ option_map length ((meaning self.now).text at) };

    /// A byte of a text.
    fn text_byte(&self, at: TextAt, i: usize) -> Option<u8>
        ensures { result ≡ picked ((meaning self.now).text at) i };

    /// How many elements a list of tables has.
    fn tables_len(&self, at: ListAt) -> Option<usize>
        ensures { result ≡ option_map length ((meaning self.now).tables at) };

    /// An element of a list of tables.
    fn table_in(&self, at: ListAt, i: usize) -> Option<TableAt>
        ensures { result ≡ picked ((meaning self.now).tables at) i };

    /// How many elements a list of numbers has.
    fn numbers_len(&self, at: ListAt) -> Option<usize>
        ensures { result ≡ option_map length ((meaning self.now).numbers at) };

    /// An element of a list of numbers.
    fn number_in(&self, at: ListAt, i: usize) -> Option<i32>
        ensures { result ≡ picked ((meaning self.now).numbers at) i };

    /// Whether a table of this kind stands here.
    fn has_table(&self, kind: Kind, at: TableAt) -> bool
        ensures { result ≡ is_some ((meaning self.now).table kind at) };

    /// A slot of a table of this kind, counted from 0.
    fn slot(&self, kind: Kind, at: TableAt, i: usize) -> Option<Slot>
        ensures { result ≡ picked ((meaning self.now).table kind at) i };
}

// Kept: each call that leaves another state says `agrees` itself; as a law of the trait it would have to be cited in each
// client's proof, where a clause is found at the call.
/// A store that can be written. A price is told before a put; a refused put changes nothing; a cut takes back all that was put above a height.
pub trait WriteStore: ReadStore {
    ghost state: { Self → State };

    ghost sound: { (s : Self) → Sound (state s) };

    /// How many bytes are used.
    fn height(&self) -> usize
        ensures value { result ≡ (state self.now).height }
        ensures agrees { held (state self.now) ≡ Self.ReadStore.meaning self.now };

    /// How many bytes are free.
    fn room(&self) -> usize
        ensures { result ≡ room (state self.now) };

    fn text_price(&self, bytes: &[u8]) -> u128
        ensures { result ≡ (state self.now).price (the_text bytes.now) };

    fn tables_price(&self, kind: Kind, tables: &[TableAt]) -> u128
        ensures { result ≡ (state self.now).price (the_tables kind tables.now) };

    fn numbers_price(&self, numbers: &[i32]) -> u128
        ensures { result ≡ (state self.now).price (the_numbers numbers.now) };

    fn table_price(&self, kind: Kind, slots: &[Slot]) -> u128
        ensures { result ≡ (state self.now).price (the_table kind slots.now) };

    fn put_text(&mut self, bytes: &[u8]) -> Result<TextAt, StoreRefusal>
        ensures puts { Put (the_text bytes.now) (state self.old) (state self.new) result }
        ensures agrees { held (state self.new) ≡ Self.ReadStore.meaning self.new };

    /// Puts a list of tables, all of one kind.
    fn put_tables(&mut self, kind: Kind, tables: &[TableAt]) -> Result<ListAt, StoreRefusal>
        ensures puts { Put (the_tables kind tables.now) (state self.old) (state self.new) result }
        ensures agrees { held (state self.new) ≡ Self.ReadStore.meaning self.new };

    fn put_numbers(&mut self, numbers: &[i32]) -> Result<ListAt, StoreRefusal>
        ensures puts { Put (the_numbers numbers.now) (state self.old) (state self.new) result }
        ensures agrees { held (state self.new) ≡ Self.ReadStore.meaning self.new };

    fn put_table(&mut self, kind: Kind, slots: &[Slot]) -> Result<TableAt, StoreRefusal>
        ensures puts { Put (the_table kind slots.now) (state self.old) (state self.new) result }
        ensures agrees { held (state self.new) ≡ Self.ReadStore.meaning self.new };

    /// Takes back what was put above a height. A number above the height, or not divisible by 8, does nothing.
    fn cut(&mut self, height: usize)
        ensures cuts { Cut (state self.old) (state self.new) height }
        ensures agrees { held (state self.new) ≡ Self.ReadStore.meaning self.new };
}
