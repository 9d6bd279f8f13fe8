//! Lines laid on a sheet, with the counts of their owners kept right.
ghost use Rattle.std.specs.Prelude.{◌≡◌, ◌-◌, ◌<◌, length, IfOk, IfSome, Some, MatchOption, MatchResult, OnOk, OnErr};
ghost use Rattle.std.specs.List.{slice_get};
ghost use Rattle.roll.specs.Rolls.{free};
ghost use Rattle.sheet.specs.Contents.{content};
ghost use Rattle.listing.specs.Filling.{moved_text, moved_pair, more_pairs, more_children, PairLaid, FieldLaid, PairAdded, FieldAdded, Did};

use crate::line::{FieldLine, Line, PairLine, read_line};
use listing_words::fault::LineFault;
use roll::Roll;
use sheet::Sheet;
use std::alloc::Global;
use types::{DataType, FieldRecord, Pair, Text};

/// What a line did to a sheet.
#[derive(Clone, Copy)]
pub enum Step {
    Emptied,
    /// The owner is the place of a record, or none where the pair is the schema's.
    PairLaid {
        key: Text,
        owner: Option<usize>,
    },
    FieldLaid {
        depth: usize,
        name: Text,
        place: usize,
    },
}

// A text of a line, as it stands once the line's texts are laid behind so many bytes.
// Kept: this and the next three each follow the shape of what they move; a trait over them would add a name and no shorter body.
fn moved(t: Text, by: u32) -> Result<Text, LineFault>
    ensures { IfOk result (λ x. x ≡ moved_text by t) }
{
    let start = by.checked_add(t.start).ok_or(LineFault::NoPlace)?;
    Ok(Text { start, ..t })
}

fn moved_pair(pair: Pair, by: u32) -> Result<Pair, LineFault>
    ensures { IfOk result (λ x. x ≡ moved_pair by pair) }
{
    Ok(Pair {
        key: moved(pair.key, by)?,
        value: moved(pair.value, by)?,
    })
}

fn moved_type(t: DataType, by: u32) -> Result<DataType, LineFault> {
    match t {
        DataType::Timestamp(unit, Some(zone)) => Ok(DataType::Timestamp(
            unit,
            Some(moved(zone, by)?),
        )),
        other => Ok(other),
    }
}

fn moved_field(field: FieldRecord, by: u32) -> Result<FieldRecord, LineFault> {
    let name = moved(field.name, by)?;
    let data_type = moved_type(field.data_type, by)?;
    Ok(FieldRecord {
        name,
        data_type,
        ..field
    })
}

// How many text bytes are used, as a place of a text.
fn text_end(sheet: &Sheet) -> Result<u32, LineFault>
    ensures { IfOk result (λ n. n ≡ length (content sheet.now).bytes) }
{
    Ok(u32::try_from(sheet.text.len())?)
}

// A record with one more pair.
// Kept: this and `with_child` name different counts; a closure that reaches a count is as long as either.
fn with_pair(field: FieldRecord) -> Option<FieldRecord>
    ensures { IfSome result (λ y. y ≡ more_pairs field) }
{
    let pairs = field.pairs.checked_add(1)?;
    Some(FieldRecord { pairs, ..field })
}

// A record with one more child.
fn with_child(field: FieldRecord) -> Option<FieldRecord>
    ensures { IfSome result (λ y. y ≡ more_children field) }
{
    let children = field.children.checked_add(1)?;
    Some(FieldRecord { children, ..field })
}

// Whether a roll has a free place.
fn has_room<T: Copy>(roll: &Roll<T>) -> Result<(), LineFault>
    ensures { OnOk result (0 < length (free roll.now)) }
{
    if roll.len() < roll.capacity() {
        Ok(())
    } else {
        Err(LineFault::NoPlace)
    }
}

// Lays the bytes of a pair and the pair, or nothing.
// Kept: that a refusal leaves what stands on the sheet is one equality in each contract, and no name for it is shorter.
// Kept: this and `lay_field` differ in the roll that they fill; a trait that tells a roll's room and fills it is longer than both.
fn lay_pair(sheet: &mut Sheet, text: &[u8], pair: Pair) -> Result<(), LineFault>
    ensures { MatchResult result (λ _. PairLaid (content sheet.old) text.now pair (content sheet.new)) (λ _. content sheet.new ≡ content sheet.old) }
{
    // Room for the pair is looked for first, so that a refusal finds no bytes laid.
    has_room(&sheet.pairs)?;
    sheet.add_text(text)?;
    sheet.pairs.add(pair).unwrap();
    Ok(())
}

// Lays the bytes of a field and the field, or nothing.
fn lay_field(sheet: &mut Sheet, text: &[u8], field: FieldRecord) -> Result<(), LineFault>
    ensures { MatchResult result (λ _. FieldLaid (content sheet.old) text.now field (content sheet.new)) (λ _. content sheet.new ≡ content sheet.old) }
{
    has_room(&sheet.records)?;
    sheet.add_text(text)?;
    sheet.records.add(field).unwrap();
    Ok(())
}

// Lays a pair of the last record, or of the schema where there is none, and counts it.
fn place_pair(sheet: &mut Sheet, text: &[u8], pair: Pair) -> Result<Option<usize>, LineFault>
    ensures { MatchResult result (λ o. PairAdded o (content sheet.old) text.now pair (content sheet.new)) (λ _. content sheet.new ≡ content sheet.old) }
{
    let Some(last) = sheet.records.len().checked_sub(1) else {
        let own = sheet.own_pairs.checked_add(1).ok_or(LineFault::NoPlace)?;
        lay_pair(sheet, text, pair)?;
        sheet.own_pairs = own;
        return Ok(None);
    };
    let counted = sheet
        .records
        .get(last)
        .and_then(with_pair)
        .ok_or(LineFault::NoPlace)?;
    lay_pair(sheet, text, pair)?;
    let _ = sheet.records.replace(last, counted);
    Ok(Some(last))
}

// Lays a field, and counts it with the field above it where there is one.
fn place_field(
    sheet: &mut Sheet,
    text: &[u8],
    field: FieldRecord,
    parent: Option<usize>,
) -> Result<(), LineFault>
    ensures { MatchResult result (λ _. FieldAdded parent (content sheet.old) text.now field (content sheet.new)) (λ _. content sheet.new ≡ content sheet.old) }
{
    let Some(i) = parent else {
        return lay_field(sheet, text, field);
    };
    let counted = sheet
        .records
        .get(i)
        .and_then(with_child)
        .ok_or(LineFault::NoPlace)?;
    lay_field(sheet, text, field)?;
    let _ = sheet.records.replace(i, counted);
    Ok(())
}

// Lays the pair that a line says.
fn add_pair(sheet: &mut Sheet, line: &PairLine) -> Result<Step, LineFault>
    ensures { MatchResult result (λ s. Did s (content sheet.old) (content sheet.new)) (λ _. content sheet.new ≡ content sheet.old) }
{
    let pair = moved_pair(line.pair, text_end(sheet)?)?;
    let owner = place_pair(sheet, line.text.as_slice(), pair)?;
    Ok(Step::PairLaid {
        key: pair.key,
        owner,
    })
}

/// Fills a sheet from lines. It keeps the path from a top field to the last one, as their places by depth.
#[derive(Drop)]
pub struct Filler {
    // Kept: places and no records, since the sheet is lent anew for each line and may have changed in between.
    path: Vec<usize>,
}

impl Filler {
    /// A filler at the start of a sheet.
    pub fn new(heap: Global) -> Filler {
        Filler {
            path: Vec::new(heap),
        }
    }

    // The field above one at this depth: none at depth 1, and refused where no such field is open.
    fn parent(&self, depth: usize) -> Result<Option<usize>, LineFault>
        ensures { IfOk result (λ p. MatchOption p (depth ≡ 1) (λ i. slice_get self.now.path.items (depth - 2) ≡ Some i)) }
    {
        match depth {
            0 => Err(LineFault::Depth),
            1 => Ok(None),
            _ => self
                .path
                .get(depth - 2)
                .copied()
                .map(Some)
                .ok_or(LineFault::Depth),
        }
    }

    fn add_field(&mut self, sheet: &mut Sheet, line: &FieldLine) -> Result<Step, LineFault>
        ensures { MatchResult result (λ s. Did s (content sheet.old) (content sheet.new)) (λ _. content sheet.new ≡ content sheet.old) }
    {
        let parent = self.parent(line.depth)?;
        self.path.try_reserve(1)?;
        let field = moved_field(line.field, text_end(sheet)?)?;
        let place = sheet.records.len();
        place_field(sheet, line.text.as_slice(), field, parent)?;
        // The new record ends the path at its depth. The path had room for it before the sheet was changed.
        self.path.truncate(line.depth.saturating_sub(1));
        self.path.push(place).unwrap();
        Ok(Step::FieldLaid {
            depth: line.depth,
            name: field.name,
            place,
        })
    }

    /// Lays a line on the sheet, and tells what it did, or nothing where the line says nothing.
    /// A bad line, and one that says nothing, leave what stands on the sheet as it was.
    pub fn lay(
        &mut self,
        heap: Global,
        sheet: &mut Sheet,
        line: &[u8],
    ) -> Result<Option<Step>, LineFault>
        ensures bad { OnErr result (content sheet.new ≡ content sheet.old) }
        ensures done { IfOk result (λ step. MatchOption step (content sheet.new ≡ content sheet.old) (λ s. Did s (content sheet.old) (content sheet.new))) }
    {
        let Some(said) = read_line(heap, line)? else {
            return Ok(None);
        };
        let step = match said {
            Line::Schema => {
                sheet.clear();
                self.path.clear();
                Step::Emptied
            }
            Line::Pair(pair) => add_pair(sheet, &pair)?,
            Line::Field(field) => self.add_field(sheet, &field)?,
        };
        Ok(Some(step))
    }
}
