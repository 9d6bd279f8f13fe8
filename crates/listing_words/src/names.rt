//! The names of types, units, modes and index types, and the one look-up that reads them.
ghost use Rattle.std.specs.Prelude.{◌≡◌, ℕ, List, ◌++◌, IfSome, IfOk, if◌then◌else◌};
ghost use Rattle.listing_words.specs.Names.{unit_name, interval_name, mode_name, index_name, type_name};
ghost use Rattle.listing_words.specs.Keywords.{keyword_name};
ghost use Rattle.listing_words.specs.Tokens.{Passes};

use crate::fault::LineFault;
use crate::token::Cursor;
use types::{DataType, IndexType, IntervalUnit, TimeUnit, UnionMode};

/// A value that is spelt by a name, one of a fixed row of values.
// Kept: one table of values and names would make `name` a look-up, and a type with parameters has no row of its own in it.
pub trait Named: Copy + 'static {
    ghost spelling: { Self → List ℕ };

    fn name(&self) -> &'static str
        ensures { result.now ≡ spelling self.now };

    fn all() -> &'static [Self];
}

/// The value of the row that a word spells.
pub fn by_name<T: Named>(word: &[u8]) -> Option<T>
    ensures { IfSome result (λ x. T.Named.spelling x ≡ word.now) }
{
    T::all()
        .iter()
        .copied()
        .find(|x| x.name().as_bytes() == word)
}

impl Cursor<'_> {
    /// The value of the row that the next word spells.
    pub fn named<T: Named>(&mut self) -> Option<T>
        ensures { IfSome result (λ x. Passes self.old.rest.now (T.Named.spelling x) self.new.rest.now) }
    {
        by_name(self.word())
    }

    /// Whether the first of two keywords stands next, or the other. Any other word is the fault.
    pub fn either(
        &mut self,
        first: Keyword,
        other: Keyword,
        fault: LineFault,
    ) -> Result<bool, LineFault>
        ensures { IfOk result (λ b. Passes self.old.rest.now (keyword_name (if b then first else other)) self.new.rest.now) }
    {
        match self.named::<Keyword>() {
            Some(k) if k == first => Ok(true),
            Some(k) if k == other => Ok(false),
            _ => Err(fault),
        }
    }
}

/// The words of a listing that are no names of types.
#[derive(Clone, Copy, PartialEq, Eq, Debug)]
pub enum Keyword {
    Schema,
    Pair,
    Field,
    Required,
    Nullable,
    Dictionary,
    Ordered,
    Unordered,
    Sorted,
    Unsorted,
    Id,
}

impl Named for Keyword {
    ghost spelling = { keyword_name };

    fn name(&self) -> &'static str {
        match *self {
            Keyword::Schema => "schema",
            Keyword::Pair => "pair",
            Keyword::Field => "field",
            Keyword::Required => "required",
            Keyword::Nullable => "nullable",
            Keyword::Dictionary => "dictionary",
            Keyword::Ordered => "ordered",
            Keyword::Unordered => "unordered",
            Keyword::Sorted => "sorted",
            Keyword::Unsorted => "unsorted",
            Keyword::Id => "id",
        }
    }

    fn all() -> &'static [Keyword] {
        &KEYWORDS
    }
}

static KEYWORDS: [Keyword; 11] = [
    Keyword::Schema,
    Keyword::Pair,
    Keyword::Field,
    Keyword::Required,
    Keyword::Nullable,
    Keyword::Dictionary,
    Keyword::Ordered,
    Keyword::Unordered,
    Keyword::Sorted,
    Keyword::Unsorted,
    Keyword::Id,
];

impl Named for TimeUnit {
    ghost spelling = { unit_name };

    fn name(&self) -> &'static str {
        match *self {
            TimeUnit::Second => "Second",
            TimeUnit::Millisecond => "Millisecond",
            TimeUnit::Microsecond => "Microsecond",
            TimeUnit::Nanosecond => "Nanosecond",
        }
    }

    fn all() -> &'static [TimeUnit] {
        &[
            TimeUnit::Second,
            TimeUnit::Millisecond,
            TimeUnit::Microsecond,
            TimeUnit::Nanosecond,
        ]
    }
}

impl Named for IntervalUnit {
    ghost spelling = { interval_name };

    fn name(&self) -> &'static str {
        match *self {
            IntervalUnit::YearMonth => "YearMonth",
            IntervalUnit::DayTime => "DayTime",
            IntervalUnit::MonthDayNano => "MonthDayNano",
        }
    }

    fn all() -> &'static [IntervalUnit] {
        &[
            IntervalUnit::YearMonth,
            IntervalUnit::DayTime,
            IntervalUnit::MonthDayNano,
        ]
    }
}

impl Named for UnionMode {
    ghost spelling = { mode_name };

    fn name(&self) -> &'static str {
        match *self {
            UnionMode::Sparse => "Sparse",
            UnionMode::Dense => "Dense",
        }
    }

    fn all() -> &'static [UnionMode] {
        &[UnionMode::Sparse, UnionMode::Dense]
    }
}

impl Named for IndexType {
    ghost spelling = { index_name };

    fn name(&self) -> &'static str {
        match *self {
            IndexType::Int8 => "Int8",
            IndexType::Int16 => "Int16",
            IndexType::Int32 => "Int32",
            IndexType::Int64 => "Int64",
            IndexType::UInt8 => "UInt8",
            IndexType::UInt16 => "UInt16",
            IndexType::UInt32 => "UInt32",
            IndexType::UInt64 => "UInt64",
        }
    }

    fn all() -> &'static [IndexType] {
        &[
            IndexType::Int8,
            IndexType::Int16,
            IndexType::Int32,
            IndexType::Int64,
            IndexType::UInt8,
            IndexType::UInt16,
            IndexType::UInt32,
            IndexType::UInt64,
        ]
    }
}

// Each type once. The parameters are written behind the name, so those that stand here are never used.
static TYPES: [DataType; 40] = [
    DataType::Null,
    DataType::Boolean,
    DataType::Int8,
    DataType::Int16,
    DataType::Int32,
    DataType::Int64,
    DataType::UInt8,
    DataType::UInt16,
    DataType::UInt32,
    DataType::UInt64,
    DataType::Float16,
    DataType::Float32,
    DataType::Float64,
    DataType::Binary,
    DataType::LargeBinary,
    DataType::BinaryView,
    DataType::Utf8,
    DataType::LargeUtf8,
    DataType::Utf8View,
    DataType::FixedSizeBinary(0),
    DataType::Date32,
    DataType::Date64,
    DataType::Time32(TimeUnit::Second),
    DataType::Time64(TimeUnit::Second),
    DataType::Timestamp(TimeUnit::Second, None),
    DataType::Interval(IntervalUnit::DayTime),
    DataType::Duration(TimeUnit::Second),
    DataType::List,
    DataType::LargeList,
    DataType::ListView,
    DataType::LargeListView,
    DataType::FixedSizeList(0),
    DataType::Struct,
    DataType::RunEndEncoded,
    DataType::Map(false),
    DataType::Decimal32(0, 0),
    DataType::Decimal64(0, 0),
    DataType::Decimal128(0, 0),
    DataType::Decimal256(0, 0),
    DataType::Union(UnionMode::Dense),
];

/// The name of a type, but for its parameters.
impl Named for DataType {
    ghost spelling = { type_name };

    fn name(&self) -> &'static str {
        match *self {
            DataType::Null => "Null",
            DataType::Boolean => "Boolean",
            DataType::Int8 => "Int8",
            DataType::Int16 => "Int16",
            DataType::Int32 => "Int32",
            DataType::Int64 => "Int64",
            DataType::UInt8 => "UInt8",
            DataType::UInt16 => "UInt16",
            DataType::UInt32 => "UInt32",
            DataType::UInt64 => "UInt64",
            DataType::Float16 => "Float16",
            DataType::Float32 => "Float32",
            DataType::Float64 => "Float64",
            DataType::Binary => "Binary",
            DataType::LargeBinary => "LargeBinary",
            DataType::BinaryView => "BinaryView",
            DataType::Utf8 => "Utf8",
            DataType::LargeUtf8 => "LargeUtf8",
            DataType::Utf8View => "Utf8View",
            DataType::FixedSizeBinary(_) => "FixedSizeBinary",
            DataType::Date32 => "Date32",
            DataType::Date64 => "Date64",
            DataType::Time32(_) => "Time32",
            DataType::Time64(_) => "Time64",
            DataType::Timestamp(_, _) => "Timestamp",
            DataType::Interval(_) => "Interval",
            DataType::Duration(_) => "Duration",
            DataType::List => "List",
            DataType::LargeList => "LargeList",
            DataType::ListView => "ListView",
            DataType::LargeListView => "LargeListView",
            DataType::FixedSizeList(_) => "FixedSizeList",
            DataType::Struct => "Struct",
            DataType::RunEndEncoded => "RunEndEncoded",
            DataType::Map(_) => "Map",
            DataType::Decimal32(_, _) => "Decimal32",
            DataType::Decimal64(_, _) => "Decimal64",
            DataType::Decimal128(_, _) => "Decimal128",
            DataType::Decimal256(_, _) => "Decimal256",
            DataType::Union(_) => "Union",
        }
    }

    fn all() -> &'static [DataType] {
        &TYPES
    }
}
