//! A line of a listing as a value, apart from any sheet.
ghost use Rattle.std.specs.Prelude.{◌≡◌, ◌+◌, [], length, IfOk};

use crate::reader::LineReader;
use listing_words::fault::LineFault;
use listing_words::names::Keyword;
use listing_words::token::Cursor;
use std::alloc::Global;
use types::{Dictionary, FieldRecord, Pair};

/// A pair with the bytes of its texts. The texts tell places among these bytes.
#[derive(Drop)]
pub struct PairLine {
    pub text: Vec<u8>,
    pub pair: Pair,
}

/// A field, its depth and the bytes of its texts. The record has no children or pairs yet.
#[derive(Drop)]
pub struct FieldLine {
    pub depth: usize,
    pub text: Vec<u8>,
    pub field: FieldRecord,
}

/// What a line says.
#[derive(Drop)]
pub enum Line {
    Schema,
    Pair(PairLine),
    Field(FieldLine),
}

// The number may be left out, and is then 0.
fn read_dictionary(cursor: &mut Cursor) -> Result<Dictionary, LineFault> {
    cursor.expect(b'(', LineFault::DictionaryWanted)?;
    let index_type = cursor.named().ok_or(LineFault::DictionaryWanted)?;
    cursor.expect(b',', LineFault::DictionaryWanted)?;
    let ordered = cursor.either(
        Keyword::Ordered,
        Keyword::Unordered,
        LineFault::DictionaryWanted,
    )?;
    let number = if cursor.takes(b',') {
        cursor.number()?
    } else {
        0
    };
    cursor.expect(b')', LineFault::DictionaryWanted)?;
    Ok(Dictionary {
        index_type,
        ordered,
        number,
    })
}

fn read_type_id(cursor: &mut Cursor) -> Result<u8, LineFault> {
    cursor.expect(b'=', LineFault::NumberWanted)?;
    cursor.number()
}

// A type id, or 0 at the end of the line.
fn read_last_id(cursor: &mut Cursor) -> Result<u8, LineFault> {
    if cursor.at_end() {
        return Ok(0);
    }
    match cursor.named() {
        Some(Keyword::Id) => read_type_id(cursor),
        _ => Err(LineFault::Trailing),
    }
}

// What may stand behind `required` or `nullable`: a dictionary, then a type id.
fn read_options(cursor: &mut Cursor) -> Result<(Option<Dictionary>, u8), LineFault> {
    if cursor.at_end() {
        return Ok((None, 0));
    }
    match cursor.named() {
        Some(Keyword::Id) => Ok((None, read_type_id(cursor)?)),
        Some(Keyword::Dictionary) => Ok((Some(read_dictionary(cursor)?), read_last_id(cursor)?)),
        _ => Err(LineFault::Trailing),
    }
}

impl LineReader<'_> {
    // The two texts of a pair, which are all that its line says.
    fn pair(mut self) -> Result<PairLine, LineFault>
        requires { self.text.items ≡ [] }
        ensures { IfOk result (λ l. (l.pair.key.start ≡ 0) × (l.pair.value.start ≡ l.pair.key.len) × (l.pair.key.len + l.pair.value.len ≡ length l.text.items)) }
    {
        let key = self.quoted()?;
        let value = self.quoted()?;
        Ok(PairLine {
            text: self.end()?,
            pair: Pair { key, value },
        })
    }

    fn field(mut self) -> Result<FieldLine, LineFault> {
        let depth = self.cursor.number()?;
        let name = self.quoted()?;
        let data_type = self.data_type()?;
        let nullable = self.cursor.either(
            Keyword::Nullable,
            Keyword::Required,
            LineFault::Nullability,
        )?;
        let (dictionary, type_id) = read_options(&mut self.cursor)?;
        let field = FieldRecord {
            name,
            nullable,
            data_type,
            dictionary,
            children: 0,
            pairs: 0,
            type_id,
        };
        Ok(FieldLine {
            depth,
            text: self.end()?,
            field,
        })
    }
}

/// Reads a line of a listing. A blank one and a remark say nothing.
pub fn read_line(heap: Global, line: &[u8]) -> Result<Option<Line>, LineFault> {
    let mut reader = LineReader::new(heap, line);
    if reader.cursor.at_end() || reader.cursor.takes(b'#') {
        return Ok(None);
    }
    let said = match reader.cursor.named() {
        Some(Keyword::Schema) => {
            reader.cursor.expect_end()?;
            Line::Schema
        }
        Some(Keyword::Pair) => Line::Pair(reader.pair()?),
        Some(Keyword::Field) => Line::Field(reader.field()?),
        _ => return Err(LineFault::UnknownCommand),
    };
    Ok(Some(said))
}
