//! What can be wrong with a line, in words.
ghost use Rattle.std.specs.Prelude.{◌≡◌};
ghost use Rattle.listing_words.specs.declared.fault.LineFault.TheVariants.{Memory, NoPlace};

use roll::Full;
use std::alloc::{AllocError, AllocFailed};
use std::fmt;
use std::num::TryFromIntError;

/// Why a line was not taken.
#[derive(Clone, Copy, PartialEq, Eq, Debug)]
pub enum LineFault {
    UnknownCommand,
    NumberWanted,
    TextWanted,
    OpenText,
    Escape,
    UnknownType,
    Parameter,
    Nullability,
    DictionaryWanted,
    Trailing,
    Depth,
    NoPlace,
    Memory,
}

impl LineFault {
    fn words(self) -> &'static str {
        match self {
            LineFault::UnknownCommand => "no such command",
            LineFault::NumberWanted => "a number is missing or too large",
            LineFault::TextWanted => "a text in quotes is missing",
            LineFault::OpenText => "a text does not end",
            LineFault::Escape => "an escape is not \\\", \\\\ or \\xHH",
            LineFault::UnknownType => "no such type",
            LineFault::Parameter => "a parameter of the type is wrong",
            LineFault::Nullability => "neither required nor nullable",
            LineFault::DictionaryWanted => "the dictionary is wrong",
            LineFault::Trailing => "more than belongs on the line",
            LineFault::Depth => "no field above has the depth for it",
            LineFault::NoPlace => "no place left on the sheet",
            LineFault::Memory => "no memory left",
        }
    }
}

impl fmt::Display for LineFault {
    fn fmt<W: fmt::Write>(&self, f: &mut fmt::Formatter<W>) -> fmt::Result {
        f.write_str(self.words())
    }
}

impl From<AllocError> for LineFault {
    ghost from_gives = { λ _ r. r ≡ Memory };

    fn from(_e: AllocError) -> LineFault {
        LineFault::Memory
    }
}

impl<T: Drop> From<AllocFailed<T>> for LineFault {
    ghost from_gives = { λ _ r. r ≡ Memory };

    fn from(_e: AllocFailed<T>) -> LineFault {
        LineFault::Memory
    }
}

impl From<Full> for LineFault {
    ghost from_gives = { λ _ r. r ≡ NoPlace };

    fn from(_e: Full) -> LineFault {
        LineFault::NoPlace
    }
}

/// A number that is too large for a place of a text.
impl From<TryFromIntError> for LineFault {
    ghost from_gives = { λ _ r. r ≡ NoPlace };

    fn from(_e: TryFromIntError) -> LineFault {
        LineFault::NoPlace
    }
}
