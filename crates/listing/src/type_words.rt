//! Types with their parameters, as they are read from a line.
ghost use Rattle.std.specs.Prelude.{OnOk};
ghost use Rattle.listing_words.specs.Tokens.{Grown};

use crate::reader::LineReader;
use listing_words::fault::LineFault;
use listing_words::names::{Keyword, Named};
use listing_words::token::Cursor;
use types::{DataType, Text, TimeUnit};

// A parameter that is spelt by a name.
fn named_parameter<T: Named>(cursor: &mut Cursor) -> Result<T, LineFault> {
    cursor.named().ok_or(LineFault::Parameter)
}

// A decimal type with the precision and the scale that stand next.
fn decimal<F: FnOnce(u8, i8) -> DataType>(
    cursor: &mut Cursor,
    kind: F,
) -> Result<DataType, LineFault>
    requires { F.IsAlwaysCallable kind }
{
    let precision = cursor.number()?;
    cursor.expect(b',', LineFault::Parameter)?;
    let scale = cursor.number()?;
    Ok(kind(precision, scale))
}

/// Whether parameters are written behind the name of a type.
pub fn has_parameters(t: DataType) -> bool {
    matches!(
        t,
        DataType::FixedSizeBinary(_)
            | DataType::FixedSizeList(_)
            | DataType::Map(_)
            | DataType::Union(_)
            | DataType::Time32(_)
            | DataType::Time64(_)
            | DataType::Timestamp(_, _)
            | DataType::Interval(_)
            | DataType::Duration(_)
            | DataType::Decimal32(_, _)
            | DataType::Decimal64(_, _)
            | DataType::Decimal128(_, _)
            | DataType::Decimal256(_, _)
    )
}

impl LineReader<'_> {
    // A unit, and a zone where a comma says that one follows.
    fn unit_and_zone(&mut self) -> Result<(TimeUnit, Option<Text>), LineFault>
        ensures { OnOk result (Grown self.old.text.items self.new.text.items) }
    {
        let unit = named_parameter(&mut self.cursor)?;
        let zone = if self.cursor.takes(b',') {
            Some(self.quoted()?)
        } else {
            None
        };
        Ok((unit, zone))
    }

    // The same type, with the parameters that the line gives it.
    fn with_parameters(&mut self, plain: DataType) -> Result<DataType, LineFault>
        ensures { OnOk result (Grown self.old.text.items self.new.text.items) }
    {
        let cursor = &mut self.cursor;
        Ok(match plain {
            DataType::FixedSizeBinary(_) => DataType::FixedSizeBinary(cursor.number()?),
            DataType::FixedSizeList(_) => DataType::FixedSizeList(cursor.number()?),
            DataType::Time32(_) => DataType::Time32(named_parameter(cursor)?),
            DataType::Time64(_) => DataType::Time64(named_parameter(cursor)?),
            DataType::Duration(_) => DataType::Duration(named_parameter(cursor)?),
            DataType::Interval(_) => DataType::Interval(named_parameter(cursor)?),
            DataType::Union(_) => DataType::Union(named_parameter(cursor)?),
            DataType::Map(_) => DataType::Map(cursor.either(
                Keyword::Sorted,
                Keyword::Unsorted,
                LineFault::Parameter,
            )?),
            DataType::Timestamp(_, _) => {
                let (unit, zone) = self.unit_and_zone()?;
                DataType::Timestamp(unit, zone)
            }
            DataType::Decimal32(_, _) => decimal(cursor, DataType::Decimal32)?,
            DataType::Decimal64(_, _) => decimal(cursor, DataType::Decimal64)?,
            DataType::Decimal128(_, _) => decimal(cursor, DataType::Decimal128)?,
            DataType::Decimal256(_, _) => decimal(cursor, DataType::Decimal256)?,
            other => other,
        })
    }

    /// A type. The bytes of a zone go behind those that the line's earlier texts gave.
    pub fn data_type(&mut self) -> Result<DataType, LineFault>
        ensures { OnOk result (Grown self.old.text.items self.new.text.items) }
    {
        let plain = self.cursor.named().ok_or(LineFault::UnknownType)?;
        if !has_parameters(plain) {
            return Ok(plain);
        }
        self.cursor.expect(b'(', LineFault::Parameter)?;
        let whole = self.with_parameters(plain)?;
        self.cursor.expect(b')', LineFault::Parameter)?;
        Ok(whole)
    }
}
