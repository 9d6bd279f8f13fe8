//! The parts of a schema: texts, pairs, types, dictionaries and field records.
#![tactic(auto)]

ghost use Rattle.std.specs.Prelude.{◌≡◌, Decides};
ghost use Rattle.std.specs.Cmp.{partial_equiv_from_equiv};
ghost use Rattle.types.specs.Equality.{data_type_eq};
ghost use Rattle.types.specs.EqualityLaws.{data_type_equiv};

/// A part of the sheet's text bytes.
#[derive(Clone, Copy, PartialEq, Eq, Debug)]
pub struct Text {
    pub start: u32,
    pub len: u32,
}

/// An entry of the metadata of a schema or a field.
#[derive(Clone, Copy, PartialEq, Eq, Debug)]
pub struct Pair {
    pub key: Text,
    pub value: Text,
}

#[derive(Clone, Copy, PartialEq, Eq, Debug)]
pub enum TimeUnit {
    Second,
    Millisecond,
    Microsecond,
    Nanosecond,
}

#[derive(Clone, Copy, PartialEq, Eq, Debug)]
pub enum IntervalUnit {
    YearMonth,
    DayTime,
    MonthDayNano,
}

#[derive(Clone, Copy, PartialEq, Eq, Debug)]
pub enum UnionMode {
    Sparse,
    Dense,
}

/// The type of a dictionary's indices.
#[derive(Clone, Copy, PartialEq, Eq, Debug)]
pub enum IndexType {
    Int8,
    Int16,
    Int32,
    Int64,
    UInt8,
    UInt16,
    UInt32,
    UInt64,
}

/// The type of a field without its children, which are records of their own.
/// A field that is dictionary-encoded has the type of the dictionary's values here.
#[derive(Clone, Copy, Debug)]
pub enum DataType {
    Null,
    Boolean,
    Int8,
    Int16,
    Int32,
    Int64,
    UInt8,
    UInt16,
    UInt32,
    UInt64,
    Float16,
    Float32,
    Float64,
    Binary,
    LargeBinary,
    BinaryView,
    Utf8,
    LargeUtf8,
    Utf8View,
    /// The width in bytes.
    FixedSizeBinary(i32),
    Date32,
    Date64,
    Time32(TimeUnit),
    Time64(TimeUnit),
    /// The unit, and the zone or none.
    Timestamp(TimeUnit, Option<Text>),
    Interval(IntervalUnit),
    Duration(TimeUnit),
    List,
    LargeList,
    ListView,
    LargeListView,
    /// The length of each list.
    FixedSizeList(i32),
    Struct,
    RunEndEncoded,
    /// Whether the keys are sorted.
    Map(bool),
    /// Precision and scale, as in each Decimal.
    Decimal32(u8, i8),
    Decimal64(u8, i8),
    Decimal128(u8, i8),
    Decimal256(u8, i8),
    Union(UnionMode),
}

/// How a field is dictionary-encoded: the type of the indices, whether the values are ordered, and the dictionary's number.
#[derive(Clone, Copy, PartialEq, Eq, Debug)]
pub struct Dictionary {
    pub index_type: IndexType,
    pub ordered: bool,
    pub number: i64,
}

/// A field. Its children are the next records, each with its own children after it; its pairs are the next of the sheet's pairs.
/// `type_id` tells the children of a union apart, and is 0 elsewhere.
#[derive(Clone, Copy, PartialEq, Eq, Debug)]
pub struct FieldRecord {
    pub name: Text,
    pub nullable: bool,
    pub data_type: DataType,
    pub dictionary: Option<Dictionary>,
    pub children: u32,
    pub pairs: u32,
    pub type_id: u8,
}

// Whether two types are the same, variant by variant.
// Kept: a derived equality names a test made of the kit's own words, and says of no call that it decides equality.
fn is_same(s: DataType, t: DataType) -> bool
    ensures { Decides result (s ≡ t) }
{
    match (s, t) {
        (DataType::Null, DataType::Null)
        | (DataType::Boolean, DataType::Boolean)
        | (DataType::Int8, DataType::Int8)
        | (DataType::Int16, DataType::Int16)
        | (DataType::Int32, DataType::Int32)
        | (DataType::Int64, DataType::Int64)
        | (DataType::UInt8, DataType::UInt8)
        | (DataType::UInt16, DataType::UInt16)
        | (DataType::UInt32, DataType::UInt32)
        | (DataType::UInt64, DataType::UInt64)
        | (DataType::Float16, DataType::Float16)
        | (DataType::Float32, DataType::Float32)
        | (DataType::Float64, DataType::Float64)
        | (DataType::Binary, DataType::Binary)
        | (DataType::LargeBinary, DataType::LargeBinary)
        | (DataType::BinaryView, DataType::BinaryView)
        | (DataType::Utf8, DataType::Utf8)
        | (DataType::LargeUtf8, DataType::LargeUtf8)
        | (DataType::Utf8View, DataType::Utf8View)
        | (DataType::Date32, DataType::Date32)
        | (DataType::Date64, DataType::Date64)
        | (DataType::List, DataType::List)
        | (DataType::LargeList, DataType::LargeList)
        | (DataType::ListView, DataType::ListView)
        | (DataType::LargeListView, DataType::LargeListView)
        | (DataType::Struct, DataType::Struct)
        | (DataType::RunEndEncoded, DataType::RunEndEncoded) => true,
        (DataType::FixedSizeBinary(a), DataType::FixedSizeBinary(b)) => a == b,
        (DataType::FixedSizeList(a), DataType::FixedSizeList(b)) => a == b,
        (DataType::Time32(a), DataType::Time32(b)) => a == b,
        (DataType::Time64(a), DataType::Time64(b)) => a == b,
        (DataType::Timestamp(a, c), DataType::Timestamp(b, d)) => a == b && c == d,
        (DataType::Interval(a), DataType::Interval(b)) => a == b,
        (DataType::Duration(a), DataType::Duration(b)) => a == b,
        (DataType::Map(a), DataType::Map(b)) => a == b,
        (DataType::Decimal32(a, c), DataType::Decimal32(b, d)) => a == b && c == d,
        (DataType::Decimal64(a, c), DataType::Decimal64(b, d)) => a == b && c == d,
        (DataType::Decimal128(a, c), DataType::Decimal128(b, d)) => a == b && c == d,
        (DataType::Decimal256(a, c), DataType::Decimal256(b, d)) => a == b && c == d,
        (DataType::Union(a), DataType::Union(b)) => a == b,
        _ => false,
    }
}

impl PartialEq for DataType {
    ghost eq = { data_type_eq };

    ghost laws = { partial_equiv_from_equiv data_type_equiv };

    fn eq(&self, other: &DataType) -> bool
        ensures value { result ≡ data_type_eq self.now other.now }
        ensures same { Decides result (self.now ≡ other.now) }
    {
        is_same(*self, *other)
    }
}

impl Eq for DataType {
    ghost laws = { data_type_equiv };
}

/// Whether two types are the same, with the same parameters: `==`, by a name.
pub fn same_data_type(s: &DataType, t: &DataType) -> bool
    ensures value { result ≡ data_type_eq s.now t.now }
    ensures same { Decides result (s.now ≡ t.now) }
{
    *s == *t
}
