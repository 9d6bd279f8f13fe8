//! A sheet printed as a listing.
ghost use Rattle.std.specs.Prelude.{◌≡◌, take, drop};

use crate::place::{Place, places};
use crate::quote::Quoted;
use listing_words::names::Named;
use sheet::Sheet;
use std::alloc::{AllocError, Global};
use std::fmt;
use types::{DataType, Dictionary, FieldRecord, Pair, Text};

/// A part of a sheet as a listing says it, with the sheet that has its texts.
#[derive(Clone, Copy)]
struct Said<'s, 'a, T> {
    sheet: &'s Sheet<'a>,
    part: T,
}

impl<'s, 'a, T> Said<'s, 'a, T> {
    // Another part of the same sheet.
    fn with<U>(&self, part: U) -> Said<'s, 'a, U> {
        Said {
            sheet: self.sheet,
            part,
        }
    }
}

/// A text that leaves the text bytes is printed as `?`.
impl fmt::Display for Said<'_, '_, Text> {
    fn fmt<W: fmt::Write>(&self, f: &mut fmt::Formatter<W>) -> fmt::Result {
        match self.sheet.text_of(self.part) {
            Some(bytes) => Quoted(bytes).fmt(f),
            None => f.write_str("?"),
        }
    }
}

impl fmt::Display for Said<'_, '_, Pair> {
    fn fmt<W: fmt::Write>(&self, f: &mut fmt::Formatter<W>) -> fmt::Result {
        let key = self.with(self.part.key);
        let value = self.with(self.part.value);
        writeln!(f, "pair {key} {value}")
    }
}

// A depth, a type id and a dictionary's number go through here, so that one width is printed.
fn show_number<W: fmt::Write>(f: &mut fmt::Formatter<W>, n: i64) -> fmt::Result {
    fmt::Display::fmt(&n, f)
}

// A parameter that is spelt by a name.
fn show_named<W: fmt::Write>(f: &mut fmt::Formatter<W>, name: &str) -> fmt::Result {
    f.write_str("(")?;
    f.write_str(name)?;
    f.write_str(")")
}

/// A type with its parameters.
impl fmt::Display for Said<'_, '_, DataType> {
    fn fmt<W: fmt::Write>(&self, f: &mut fmt::Formatter<W>) -> fmt::Result {
        f.write_str(self.part.name())?;
        match self.part {
            DataType::FixedSizeBinary(n) | DataType::FixedSizeList(n) => write!(f, "({n})"),
            DataType::Time32(unit) | DataType::Time64(unit) | DataType::Duration(unit) =>
                show_named(f, unit.name()),
            DataType::Timestamp(unit, None) => show_named(f, unit.name()),
            DataType::Timestamp(unit, Some(zone)) => {
                write!(f, "({}, {})", unit.name(), self.with(zone))
            }
            DataType::Interval(unit) => show_named(f, unit.name()),
            DataType::Union(mode) => show_named(f, mode.name()),
            DataType::Map(sorted) => show_named(f, if sorted { "sorted" } else { "unsorted" }),
            DataType::Decimal32(p, s)
            | DataType::Decimal64(p, s)
            | DataType::Decimal128(p, s)
            | DataType::Decimal256(p, s) => write!(f, "({p}, {s})"),
            _ => Ok(()),
        }
    }
}

fn show_dictionary<W: fmt::Write>(f: &mut fmt::Formatter<W>, d: Dictionary) -> fmt::Result {
    f.write_str(" dictionary(")?;
    f.write_str(d.index_type.name())?;
    f.write_str(if d.ordered {
        ", ordered, "
    } else {
        ", unordered, "
    })?;
    show_number(f, d.number)?;
    f.write_str(")")
}

/// A record with its place, as a field's line says them.
#[derive(Clone, Copy)]
struct FieldLine<'s> {
    field: &'s FieldRecord,
    place: Place,
}

// Kept: piece by piece, as a dictionary; by one `write!` of several parts a listing of short records took half as long again.
/// A field's line. The type id is left out where it is 0 and the field is no child of a union.
impl fmt::Display for Said<'_, '_, FieldLine<'_>> {
    fn fmt<W: fmt::Write>(&self, f: &mut fmt::Formatter<W>) -> fmt::Result {
        let field = self.part.field;
        let Place { depth, in_union } = self.part.place;
        f.write_str("field ")?;
        show_number(f, i64::from(depth))?;
        f.write_str(" ")?;
        self.with(field.name).fmt(f)?;
        f.write_str(" ")?;
        self.with(field.data_type).fmt(f)?;
        f.write_str(if field.nullable {
            " nullable"
        } else {
            " required"
        })?;
        if let Some(d) = field.dictionary {
            show_dictionary(f, d)?;
        }
        if field.type_id != 0 || in_union {
            f.write_str(" id=")?;
            show_number(f, i64::from(field.type_id))?;
        }
        f.write_str("\n")
    }
}

impl fmt::Display for Said<'_, '_, &[Pair]> {
    fn fmt<W: fmt::Write>(&self, f: &mut fmt::Formatter<W>) -> fmt::Result {
        for pair in self.part {
            self.with(*pair).fmt(f)?;
        }
        Ok(())
    }
}

// The first `n` of these pairs, as far as there are so many, and the rest.
fn cut(pairs: &[Pair], n: u32) -> (&[Pair], &[Pair])
    ensures front { result.0.now ≡ take n pairs.now }
    ensures back { result.1.now ≡ drop n pairs.now }
{
    pairs.split_at(pairs.len().min(n as usize))
}

// Kept: places beside the sheet's records; with the records in them they would lend these.
/// A sheet with what printing it needs. A sheet whose counts do not fit is printed too, as far as its counts go.
#[derive(Drop)]
pub struct Listing<'s, 'a> {
    sheet: &'s Sheet<'a>,
    places: Vec<Place>,
}

impl<'s, 'a> Listing<'s, 'a> {
    pub fn new(heap: Global, sheet: &'s Sheet<'a>) -> Result<Listing<'s, 'a>, AllocError> {
        let places = places(heap, sheet.records.as_slice())?;
        Ok(Listing { sheet, places })
    }
}

impl fmt::Display for Listing<'_, '_> {
    fn fmt<W: fmt::Write>(&self, f: &mut fmt::Formatter<W>) -> fmt::Result {
        let sheet = self.sheet;
        let (own, mut rest) = cut(sheet.pairs.as_slice(), sheet.own_pairs);
        f.write_str("schema\n")?;
        Said { sheet, part: own }.fmt(f)?;
        for (field, place) in sheet.records.as_slice().iter().zip(&self.places) {
            let (mine, others) = cut(rest, field.pairs);
            let line = Said {
                sheet,
                part: FieldLine {
                    field,
                    place: *place,
                },
            };
            line.fmt(f)?;
            line.with(mine).fmt(f)?;
            rest = others;
        }
        Ok(())
    }
}
