//! The words that an object is laid as, a head and the words behind it; and what a word says.
ghost use Rattle.std.specs.Prelude.{◌≡◌, ◌≢◌, ℕ, ◌+◌, ◌*◌, ◌/◌, ◌^◌, ◌<◌, ◌≤◌, length, slice_index, cond, MatchOption, ◌==◌};
ghost use Rattle.kinds.specs.Slots.{sorts};
ghost use Rattle.word_layout.specs.Lists.{list_size, ListWord};
ghost use Rattle.word_layout.specs.Views.{raw_of, there, mask_of, table_mark, Placed, number_of, slot_of, bit};
ghost use Rattle.store.specs.declared.place.Slot.TheVariants.{Absent};
ghost use Rattle.word_layout.specs.Words.{TextWord, SlotWord, table_head};

use crate::lay::MAX_WORDS;
use crate::list::{Element, list_word, list_words};
use kinds::{Kind, Scalar, Sort};
use std::array;
use store::{ListAt, Slot, TableAt, TextAt};

/// An object as it is laid: a head, and the words behind it.
pub trait InWords: Copy {
    ghost behind: { Self → ℕ };

    ghost head_word: { Self → ℕ };

    // Whether this is the object's k-th word behind its head.
    ghost is_word: { Self → ℕ → ℕ → Type 0 };

    /// How many words come behind the head.
    fn size(&self) -> usize
        ensures { result ≡ behind self.now };

    /// The head, or none of an object that no store has room for.
    fn head(&self) -> Option<u64>
        ensures { MatchOption result (65536 ≤ behind self.now) (λ h. h ≡ head_word self.now) };

    /// The k-th word behind the head, or none past the last.
    fn word(&self, k: usize) -> Option<u64>
        ensures { MatchOption result (behind self.now ≤ k) (is_word self.now k) };
}

/// A text.
#[derive(Clone, Copy)]
pub struct Text<'a>(pub &'a [u8]);

/// A list.
#[derive(Clone, Copy)]
pub struct List<'a, E>(pub &'a [E]);

/// A table with as many slots as its kind has.
#[derive(Clone, Copy)]
pub struct Table<'a> {
    kind: Kind,
    slots: &'a [Slot],
    ghost whole: { length slots.now ≡ length (sorts kind) },
}

impl<'a> Table<'a> {
    /// A table of a kind with these slots, or none where the kind has more or fewer.
    pub fn new(kind: Kind, slots: &'a [Slot]) -> Option<Table<'a>>
        ensures { MatchOption result (length slots.now ≢ length (sorts kind)) (λ t. (t.kind ≡ kind) × (t.slots.now ≡ slots.now)) }
    {
        if slots.len() == kind.slots().len() {
            Some(Table { kind, slots })
        } else {
            None
        }
    }
}

impl<'a> InWords for Text<'a> {
    ghost behind = { λ t. (length t.0.now + 7) / 8 };

    ghost head_word = { λ t. 1 + 8 * length t.0.now };

    ghost is_word = { λ t k w. TextWord t.0.now k w };

    fn size(&self) -> usize {
        self.0.len().div_ceil(8)
    }

    fn head(&self) -> Option<u64> {
        if self.size() < MAX_WORDS {
            Some(1 + 8 * self.0.len() as u64)
        } else {
            None
        }
    }

    fn word(&self, k: usize) -> Option<u64> {
        if k < self.size() {
            Some(text_word(self.0, k))
        } else {
            None
        }
    }
}

// Kept: a text's and a list's words are told alike, each by a function of its own; a step for both would need that function
// and its bound as parameters.
impl<'a, E: Element> InWords for List<'a, E> {
    ghost behind = { λ l. list_size (length l.0.now) };

    ghost head_word = { λ l. E.Element.mark + 8 * length l.0.now };

    ghost is_word = { λ l k w. ListWord E.Element.of l.0.now k w };

    fn size(&self) -> usize {
        list_words(self.0.len())
    }

    #[tactic(auto, using(crate::proofs::Listing::list_large))]
    fn head(&self) -> Option<u64> {
        if self.size() < MAX_WORDS {
            Some(E::mark() + 8 * self.0.len() as u64)
        } else {
            None
        }
    }

    fn word(&self, k: usize) -> Option<u64> {
        if k < self.size() {
            Some(list_word(self.0, k))
        } else {
            None
        }
    }
}

impl<'a> InWords for Table<'a> {
    ghost behind = { λ t. length t.slots.now };

    ghost head_word = { λ t. table_head t.kind t.slots.now };

    ghost is_word = { λ t k w. SlotWord t.slots.now k w };

    fn size(&self) -> usize {
        self.slots.len()
    }

    #[tactic(auto, using(crate::proofs::Slots::few, crate::proofs::Masks::mask_below))]
    fn head(&self) -> Option<u64> {
        Some(mark_of(self.kind) + 256 * mask(self.slots))
    }

    fn word(&self, k: usize) -> Option<u64> {
        if k < self.slots.len() {
            Some(slot_word(self.slots[k]))
        } else {
            None
        }
    }
}

// The byte at an index, and 0 past the end.
fn byte_at(bytes: &[u8], i: usize) -> u8
    ensures { result ≡ slice_index bytes.now i }
{
    bytes.get(i).copied().unwrap_or(0)
}

// The k-th eight bytes of a text, with zeros past its end.
fn text_word(bytes: &[u8], k: usize) -> u64
    requires { k < 2 ^ 60 }
    ensures { TextWord bytes.now k result }
{
    u64::from_le_bytes(array::from_fn(|j| byte_at(bytes, 8 * k + j)))
}

// The word of a slot.
fn slot_word(slot: Slot) -> u64
    ensures { (result ≡ raw_of slot) × Placed slot }
{
    match slot {
        Slot::Absent => 0,
        Slot::Number(n) => n.cast_unsigned(),
        Slot::Text(at) => u64::from(at.0),
        Slot::List(at) => u64::from(at.0),
        Slot::Table(at) => u64::from(at.0),
    }
}

/// The low byte of a table's head.
pub fn mark_of(kind: Kind) -> u64
    ensures { result ≡ table_mark kind }
{
    4 + 8 * u64::from(kind.code())
}

fn is_there(slot: Slot) -> bool
    ensures { result ≡ (there slot == 1) }
{
    !matches!(slot, Slot::Absent)
}

// A bit for each slot that is there, the lowest for the first.
fn mask(slots: &[Slot]) -> u64
    requires { length slots.now < 32 }
    ensures { result ≡ mask_of slots.now }
{
    let mut mask = 0;
    for slot in slots.iter().rev() {
        mask = u64::from(is_there(*slot)) + 2 * mask;
    }
    mask
}

// Bit i of m.
fn bit_of(m: u64, i: usize) -> bool
    requires { i < 64 }
    ensures { result ≡ bit m i }
{
    (m >> i) % 2 == 1
}

// The number in a slot's word.
fn number_of(scalar: Scalar, w: u64) -> i64
    ensures { result ≡ number_of scalar w }
{
    match scalar {
        Scalar::Flag => i64::from(w % 256 != 0),
        Scalar::U8 => (w % 256) as i64,
        Scalar::I16 => ((w % 65536) as u16).cast_signed() as i64,
        Scalar::I32 => ((w % 4294967296) as u32).cast_signed() as i64,
        Scalar::I64 => w.cast_signed(),
    }
}

// What a slot's word holds, by the slot's sort.
fn slot_of(sort: Sort, w: u64) -> Slot
    ensures { result ≡ slot_of sort w }
{
    let at = (w % 4294967296) as u32;
    match sort {
        Sort::Number(scalar, _) => Slot::Number(number_of(scalar, w)),
        Sort::Text => Slot::Text(TextAt(at)),
        Sort::Table(_) | Sort::ByTag(_) => Slot::Table(TableAt(at)),
        Sort::Tables(_) | Sort::Numbers => Slot::List(ListAt(at)),
        Sort::Longs => Slot::Absent,
    }
}

/// The slot at an index of a table, read off its word, where the table's head is `head`.
pub fn slot_in(head: u64, i: usize, sort: Sort, word: u64) -> Slot
    ensures { result ≡ cond (bit (head / 256) i) (slot_of sort word) Absent }
{
    // Behind the mark a head has 56 bits, one for each slot that may be there.
    if i >= 56 {
        return Slot::Absent;
    }
    if bit_of(head / 256, i) {
        slot_of(sort, word)
    } else {
        Slot::Absent
    }
}
