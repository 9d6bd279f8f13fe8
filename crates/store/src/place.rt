//! Places in a store, one type for each sort of object, so that none is taken for another.

/// Where a text stands.
#[derive(Clone, Copy, PartialEq, Eq, Debug)]
pub struct TextAt(pub u32);

/// Where a list stands, of tables or of numbers.
#[derive(Clone, Copy, PartialEq, Eq, Debug)]
pub struct ListAt(pub u32);

/// Where a table stands.
#[derive(Clone, Copy, PartialEq, Eq, Debug)]
pub struct TableAt(pub u32);

/// What a slot of a table holds. Which of these it may be, its kind says.
#[derive(Clone, Copy, PartialEq, Eq, Debug)]
pub enum Slot {
    // Kept: FlatBuffers calls such a slot absent, and `ReadStore::slot` answers an `Option<Slot>`, where a second `Option` inside would be harder to read.
    Absent,
    /// A number of the slot's width, or a flag: 0 or 1.
    Number(i64),
    Text(TextAt),
    List(ListAt),
    Table(TableAt),
}
