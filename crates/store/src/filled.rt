//! Whether an object is filled as its kind says, asked of any store that can be read.
ghost use Rattle.std.specs.Prelude.{◌≡◌};
ghost use Rattle.kinds.specs.Slots.{sorts};
ghost use Rattle.store.specs.declared.place.Slot.TheVariants.{Absent};
ghost use Rattle.store.specs.Meaning.{number_fits, takes_number, tag_of, tables_fit, tables_stand, element_fits, picked, text_fits, list_fits, table_fits, slot_fits, slots_fit};

use crate::place::{ListAt, Slot, TableAt, TextAt};
use crate::traits::ReadStore;
use kinds::{Kind, Scalar, Sort};

// Whether a slot that keeps its number so can hold this one.
fn number_fits(scalar: Scalar, n: i64) -> bool
    ensures { result ≡ number_fits scalar n }
{
    match scalar {
        Scalar::Flag => matches!(n, 0 | 1),
        Scalar::U8 => u8::try_from(n).is_ok(),
        Scalar::I16 => i16::try_from(n).is_ok(),
        Scalar::I32 => i32::try_from(n).is_ok(),
        Scalar::I64 => true,
    }
}

fn takes_number(sort: Sort, n: i64) -> bool
    ensures { result ≡ takes_number sort n }
{
    matches!(sort, Sort::Number(scalar, _) if number_fits(scalar, n))
}

fn text_fits<S: ReadStore>(store: &S, sort: Sort, at: TextAt) -> bool
    ensures { result ≡ text_fits (S.ReadStore.meaning store.now) sort at }
{
    matches!(sort, Sort::Text) && store.text_len(at).is_some()
}

/// Whether a table of the kind stands at each of the places.
pub fn tables_fit<S: ReadStore>(store: &S, kind: Kind, tables: &[TableAt]) -> bool
    ensures { result ≡ tables_fit (S.ReadStore.meaning store.now) kind tables.now }
{
    tables.iter().all(|at| store.has_table(kind, *at))
}

// Whether an element of a list of tables is a table of the kind.
fn element_fits<S: ReadStore>(store: &S, kind: Kind, at: ListAt, i: usize) -> bool
    ensures { result ≡ element_fits (S.ReadStore.meaning store.now) kind (picked ((S.ReadStore.meaning store.now).tables at) i) }
{
    store
        .table_in(at, i)
        .is_some_and(|table| store.has_table(kind, table))
}

// Whether a list of tables of the kind stands.
fn tables_stand<S: ReadStore>(store: &S, kind: Kind, at: ListAt) -> bool
    ensures { result ≡ tables_stand (S.ReadStore.meaning store.now) kind ((S.ReadStore.meaning store.now).tables at) }
{
    let Some(n) = store.tables_len(at) else {
        return false;
    };
    (0..n).all(|i| element_fits(store, kind, at, i))
}

fn list_fits<S: ReadStore>(store: &S, sort: Sort, at: ListAt) -> bool
    ensures { result ≡ list_fits (S.ReadStore.meaning store.now) sort at }
{
    match sort {
        Sort::Tables(kind) => tables_stand(store, kind, at),
        Sort::Numbers => store.numbers_len(at).is_some(),
        _ => false,
    }
}

fn tag_of(slot: Slot) -> i64
    ensures { result ≡ tag_of slot }
{
    match slot {
        Slot::Number(n) => n,
        _ => 0,
    }
}

fn table_fits<S: ReadStore>(store: &S, before: Slot, sort: Sort, at: TableAt) -> bool
    ensures { result ≡ table_fits (S.ReadStore.meaning store.now) before sort at }
{
    match sort {
        Sort::Table(kind) => store.has_table(kind, at),
        Sort::ByTag(tag) => tag
            .kind(tag_of(before))
            .is_some_and(|kind| store.has_table(kind, at)),
        _ => false,
    }
}

// Whether a slot is filled as its sort says, where this one stands before it.
fn slot_fits<S: ReadStore>(store: &S, before: Slot, sort: Sort, slot: Slot) -> bool
    ensures { result ≡ slot_fits (S.ReadStore.meaning store.now) before sort slot }
{
    match slot {
        Slot::Absent => true,
        Slot::Number(n) => takes_number(sort, n),
        Slot::Text(at) => text_fits(store, sort, at),
        Slot::List(at) => list_fits(store, sort, at),
        Slot::Table(at) => table_fits(store, before, sort, at),
    }
}

/// Whether these are the slots of a table of the kind, each filled as its sort says.
#[tactic(auto, using(crate::proofs::Fits::slots_length))]
pub fn slots_fit<S: ReadStore>(store: &S, kind: Kind, slots: &[Slot]) -> bool
    ensures { result ≡ slots_fit (S.ReadStore.meaning store.now) Absent (sorts kind) slots.now }
{
    let sorts = kind.slots();
    if slots.len() != sorts.len() {
        return false;
    }
    let mut before = Slot::Absent;
    for (sort, slot) in sorts.iter().zip(slots) {
        if !slot_fits(store, before, *sort, *slot) {
            return false;
        }
        before = *slot;
    }
    true
}
