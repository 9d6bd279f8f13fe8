//! The kinds of tables of the schema format and of its message, and what each slot of a kind may hold.
#![tactic(auto)]

ghost use Rattle.std.specs.Prelude.{◌≡◌};
ghost use Rattle.kinds.specs.Slots.{sorts, code, members, by_tag, width};

/// A kind of table.
#[derive(Clone, Copy, PartialEq, Eq, Debug)]
pub enum Kind {
    Schema,
    Field,
    KeyValue,
    DictionaryEncoding,
    Message,
    Null,
    Int,
    FloatingPoint,
    Binary,
    Utf8,
    Bool,
    Decimal,
    Date,
    Time,
    Timestamp,
    Interval,
    List,
    Struct,
    Union,
    FixedSizeBinary,
    FixedSizeList,
    Map,
    Duration,
    LargeBinary,
    LargeUtf8,
    LargeList,
    RunEndEncoded,
    BinaryView,
    Utf8View,
    ListView,
    LargeListView,
}

/// How a number is kept: a flag and a tag in one byte, the others signed in 2, 4 and 8 bytes.
#[derive(Clone, Copy, PartialEq, Eq, Debug)]
pub enum Scalar {
    Flag,
    U8,
    I16,
    I32,
    I64,
}

/// Which table kinds a tag chooses among.
#[derive(Clone, Copy, PartialEq, Eq, Debug)]
pub enum TagOf {
    /// The type of a field.
    FieldType,
    /// The header of a message.
    MessageHeader,
}

/// What a slot may hold.
#[derive(Clone, Copy, PartialEq, Eq, Debug)]
pub enum Sort {
    /// A number, and what an absent one stands for.
    Number(Scalar, i64),
    Text,
    /// A table of one kind.
    Table(Kind),
    /// A table of the kind that the tag in the slot before it chooses.
    ByTag(TagOf),
    /// A list of tables of one kind.
    Tables(Kind),
    /// A list of i32.
    Numbers,
    /// A list of i64. No store holds one, so the slot is always absent.
    Longs,
}

const FLAG: Sort = Sort::Number(Scalar::Flag, 0);

const TAG: Sort = Sort::Number(Scalar::U8, 0);
// A code of an enum of the format, by the code that is its default.
const CODE_0: Sort = Sort::Number(Scalar::I16, 0);

const CODE_1: Sort = Sort::Number(Scalar::I16, 1);

const INT: Sort = Sort::Number(Scalar::I32, 0);

const LONG: Sort = Sort::Number(Scalar::I64, 0);

const SCHEMA: [Sort; 4] = [
    CODE_0,
    Sort::Tables(Kind::Field),
    Sort::Tables(Kind::KeyValue),
    Sort::Longs,
];

const FIELD: [Sort; 7] = [
    Sort::Text,
    FLAG,
    TAG,
    Sort::ByTag(TagOf::FieldType),
    Sort::Table(Kind::DictionaryEncoding),
    Sort::Tables(Kind::Field),
    Sort::Tables(Kind::KeyValue),
];

const KEY_VALUE: [Sort; 2] = [Sort::Text, Sort::Text];

const DICTIONARY_ENCODING: [Sort; 4] = [LONG, Sort::Table(Kind::Int), FLAG, CODE_0];

const MESSAGE: [Sort; 5] = [
    CODE_0,
    TAG,
    Sort::ByTag(TagOf::MessageHeader),
    LONG,
    Sort::Tables(Kind::KeyValue),
];

const INT_TYPE: [Sort; 2] = [INT, FLAG];

const DECIMAL: [Sort; 3] = [INT, INT, Sort::Number(Scalar::I32, 128)];

const TIME: [Sort; 2] = [CODE_1, Sort::Number(Scalar::I32, 32)];

const TIMESTAMP: [Sort; 2] = [CODE_0, Sort::Text];

const UNION: [Sort; 2] = [CODE_0, Sort::Numbers];

const ONE_CODE_0: [Sort; 1] = [CODE_0];

const ONE_CODE_1: [Sort; 1] = [CODE_1];

const ONE_INT: [Sort; 1] = [INT];

const ONE_FLAG: [Sort; 1] = [FLAG];

const NONE: [Sort; 0] = [];

// The kinds of a field's type, in the order of their tags from 1 on.
const TYPES: [Kind; 26] = [
    Kind::Null,
    Kind::Int,
    Kind::FloatingPoint,
    Kind::Binary,
    Kind::Utf8,
    Kind::Bool,
    Kind::Decimal,
    Kind::Date,
    Kind::Time,
    Kind::Timestamp,
    Kind::Interval,
    Kind::List,
    Kind::Struct,
    Kind::Union,
    Kind::FixedSizeBinary,
    Kind::FixedSizeList,
    Kind::Map,
    Kind::Duration,
    Kind::LargeBinary,
    Kind::LargeUtf8,
    Kind::LargeList,
    Kind::RunEndEncoded,
    Kind::BinaryView,
    Kind::Utf8View,
    Kind::ListView,
    Kind::LargeListView,
];

const HEADERS: [Kind; 1] = [Kind::Schema];

impl Scalar {
    /// How many bytes the number takes in FlatBuffers.
    pub fn width(self) -> usize
        ensures { result ≡ width self }
    {
        match self {
            Scalar::Flag | Scalar::U8 => 1,
            Scalar::I16 => 2,
            Scalar::I32 => 4,
            Scalar::I64 => 8,
        }
    }
}

impl Kind {
    /// The kind's own number, below 32. The store of words marks a table with it.
    pub fn code(self) -> u32
        ensures { result ≡ code self }
    {
        self as u32
    }

    /// What the slots of a table of this kind may hold, in order.
    pub fn slots(self) -> &'static [Sort]
        ensures { result.now ≡ sorts self }
    {
        match self {
            Kind::Schema => &SCHEMA,
            Kind::Field => &FIELD,
            Kind::KeyValue => &KEY_VALUE,
            Kind::DictionaryEncoding => &DICTIONARY_ENCODING,
            Kind::Message => &MESSAGE,
            Kind::Int => &INT_TYPE,
            Kind::FloatingPoint | Kind::Interval => &ONE_CODE_0,
            Kind::Decimal => &DECIMAL,
            Kind::Date | Kind::Duration => &ONE_CODE_1,
            Kind::Time => &TIME,
            Kind::Timestamp => &TIMESTAMP,
            Kind::Union => &UNION,
            Kind::FixedSizeBinary | Kind::FixedSizeList => &ONE_INT,
            Kind::Map => &ONE_FLAG,
            _ => &NONE,
        }
    }
}

impl TagOf {
    /// The kinds that a tag chooses among, in the order of their tags from 1 on.
    pub fn kinds(self) -> &'static [Kind]
        ensures { result.now ≡ members self }
    {
        match self {
            TagOf::FieldType => &TYPES,
            TagOf::MessageHeader => &HEADERS,
        }
    }

    /// The kind that a tag chooses; none where the tag is 0 or is not listed.
    pub fn kind(self, tag: i64) -> Option<Kind>
        ensures { result ≡ by_tag self tag }
    {
        let n = usize::try_from(tag).ok()?.checked_sub(1)?;
        self.kinds().get(n).copied()
    }
}
