//! What each type asks of its field, in one place.
ghost use Rattle.std.specs.Prelude.{◌≡◌};
ghost use Rattle.types.specs.Types.{zone_of};
ghost use Rattle.rules.specs.Tables.{child_rule, count_fits, unit_fits};

use types::{DataType, Text, TimeUnit};

/// A union has at most this many children.
pub const MAX_UNION_CHILDREN: u32 = 128;

/// How many children the fields of a type have.
#[derive(Clone, Copy)]
pub enum ChildRule {
    Leaf,
    One,
    Two,
    Any,
    OfUnion,
}

/// The rule for the children of a type.
pub fn child_rule(t: DataType) -> ChildRule
    ensures { result ≡ child_rule t }
{
    match t {
        DataType::List
        | DataType::LargeList
        | DataType::ListView
        | DataType::LargeListView
        | DataType::FixedSizeList(_)
        | DataType::Map(_) => ChildRule::One,
        DataType::RunEndEncoded => ChildRule::Two,
        DataType::Struct => ChildRule::Any,
        DataType::Union(_) => ChildRule::OfUnion,
        _ => ChildRule::Leaf,
    }
}

/// Whether a rule allows a count of children.
pub fn count_fits(rule: ChildRule, n: u32) -> bool
    ensures { result ≡ count_fits rule n }
{
    match rule {
        ChildRule::Leaf => n == 0,
        ChildRule::One => n == 1,
        ChildRule::Two => n == 2,
        ChildRule::Any => true,
        ChildRule::OfUnion => n <= MAX_UNION_CHILDREN,
    }
}

/// Whether a type's unit is one that it takes.
pub fn unit_fits(t: DataType) -> bool
    ensures { result ≡ unit_fits t }
{
    match t {
        DataType::Time32(unit) => matches!(unit, TimeUnit::Second | TimeUnit::Millisecond),
        DataType::Time64(unit) => matches!(unit, TimeUnit::Microsecond | TimeUnit::Nanosecond),
        _ => true,
    }
}

/// The text of a type's zone, where it has one.
pub fn zone_of(t: DataType) -> Option<Text>
    ensures { result ≡ zone_of t }
{
    match t {
        DataType::Timestamp(_, zone) => zone,
        _ => None,
    }
}
