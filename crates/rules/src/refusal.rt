//! Why a sheet is refused.
ghost use Rattle.std.specs.Prelude.{◌≡◌};
ghost use Rattle.rules.specs.Refusals.{refusal_number};

use std::fmt;

/// The rule that a sheet breaks.
#[derive(Clone, Copy, PartialEq, Eq, Debug)]
pub enum SheetRefusal {
    /// A used count, or the lengths of all texts together, is above its limit.
    TooLarge,
    /// A count fits neither the type nor what the rolls hold.
    Counts,
    /// Fields are nested more than 32 deep.
    TooDeep,
    /// A type id, a time unit or an empty zone.
    Parameter,
    /// A text leaves the used bytes or is not UTF-8.
    BadText,
    /// A key stands twice in one owner.
    RepeatedKey,
}

impl SheetRefusal {
    // Kept: the enum is the error that `?` passes on; the number stands for it outside, and no code but tests decides by it.
    /// The number by which the refusal is told.
    pub fn number(self) -> u32
        ensures { result ≡ refusal_number self }
    {
        match self {
            SheetRefusal::TooLarge => 10,
            SheetRefusal::Counts => 11,
            SheetRefusal::TooDeep => 12,
            SheetRefusal::Parameter => 13,
            SheetRefusal::BadText => 14,
            SheetRefusal::RepeatedKey => 15,
        }
    }
}

/// The number by which a refusal is told, and the rule in words.
impl fmt::Display for SheetRefusal {
    fn fmt<W: fmt::Write>(&self, f: &mut fmt::Formatter<W>) -> fmt::Result {
        let number = self.number();
        let words = match self {
            SheetRefusal::TooLarge => "too large",
            SheetRefusal::Counts => "counts do not fit",
            SheetRefusal::TooDeep => "nested too deep",
            SheetRefusal::Parameter => "type id, unit or zone",
            SheetRefusal::BadText => "text",
            SheetRefusal::RepeatedKey => "key repeated",
        };
        write!(f, "{number} {words}")
    }
}
