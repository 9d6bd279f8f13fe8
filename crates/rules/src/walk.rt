//! The check of a sheet: records in preorder, each by its own rules and then its children.
ghost use Rattle.std.specs.Prelude.{◌≡◌, ◌+◌, ◌-◌, ◌<◌, ◌≤◌, ◌&&◌, length, IfOk, MatchResult, OnOk};
ghost use Rattle.sheet.specs.Contents.{content};
ghost use Rattle.sheet.specs.Schemas.{HoldsOne};
ghost use Rattle.rules.specs.Tables.{child_rule, CountFits, unit_fits};
ghost use Rattle.rules.specs.Sites.{row_under};
ghost use Rattle.rules.specs.Tests.{id_fits, zone_fits};
ghost use Rattle.types.specs.Types.{zone_of};
ghost use Rattle.rules.specs.Verdict.{first_broken, field_rules, text_rules, own_rules, site_at, past_pairs, walk_children, walk_field, walk_row, verdict};
ghost use Rattle.rules.specs.Models.{row_of, ahead, walked, told};
ghost use Rattle.rules.specs.Lawful.{Lawful};

use crate::limits::within_limits;
use crate::refusal::SheetRefusal;
use crate::siblings::Siblings;
use crate::tables::{child_rule, count_fits, unit_fits, zone_of};
use crate::texts::{keys_differ, pairs_fit, texts_fit};
use sheet::{Sheet, Unread};
use types::{DataType, FieldRecord, Pair};

/// Fields nest at most this deep; an outermost one has depth 1.
pub const MAX_DEPTH: u32 = 32;

// Whether a type's zone is missing or not empty.
fn zone_fits(t: DataType) -> bool
    ensures { result ≡ zone_fits (zone_of t) }
{
    zone_of(t).is_none_or(|zone| zone.len != 0)
}

// The rules on the texts of a record with these pairs.
fn check_texts(bytes: &[u8], head: FieldRecord, pairs: &[Pair]) -> Result<(), SheetRefusal>
    ensures { told result ≡ first_broken (text_rules bytes.now head pairs.now) }
{
    if !texts_fit(bytes, head, pairs) {
        return Err(SheetRefusal::BadText);
    }
    if !keys_differ(bytes, pairs) {
        return Err(SheetRefusal::RepeatedKey);
    }
    Ok(())
}

// Whether the type id fits the row, the unit the type, and the zone is not empty.
fn parameters_fit(row: &Siblings, head: FieldRecord) -> bool
    ensures { result ≡ ((id_fits (row_of row.now) head.type_id && unit_fits head.data_type) && zone_fits (zone_of head.data_type)) }
{
    row.takes(head.type_id) && unit_fits(head.data_type) && zone_fits(head.data_type)
}

// One level of a walk: the text bytes of the sheet, and how many levels are left for a field.
#[derive(Clone, Copy)]
struct Level<'a> {
    bytes: &'a [u8],
    room: u32,
}

impl<'a> Level<'a> {
    // The level of the children.
    fn below(&self) -> Level<'a>
        requires { 0 < self.now.room }
        ensures bytes { result.bytes.now ≡ self.now.bytes.now }
        ensures room { result.room ≡ self.now.room - 1 }
    {
        Level {
            room: self.room - 1,
            ..*self
        }
    }

    // The rules of one record where it stands. At Ok they leave room for its children, and tell what is past its own pairs.
    fn check_record<'s>(
        &self,
        row: &Siblings,
        head: FieldRecord,
        from: Unread<'s>,
    ) -> Result<Unread<'s>, SheetRefusal>
        ensures rules { told result ≡ first_broken (field_rules self.now.bytes.now (site_at self.now.room (row_of row.now) head (ahead from.entry))) }
        ensures past { IfOk result (λ a. ahead a ≡ past_pairs head (ahead from.entry)) }
        ensures fits { OnOk result ((0 < self.now.room) × CountFits (child_rule head.data_type) head.children) }
    {
        let (own, pairs) = from
            .pairs
            .split_at_checked(head.pairs as usize)
            .ok_or(SheetRefusal::Counts)?;
        if !count_fits(child_rule(head.data_type), head.children) {
            return Err(SheetRefusal::Counts);
        }
        if self.room == 0 {
            return Err(SheetRefusal::TooDeep);
        }
        if !parameters_fit(row, head) {
            return Err(SheetRefusal::Parameter);
        }
        check_texts(self.bytes, head, own)?;
        Ok(Unread { pairs, ..from })
    }

    // A field whose record was read, and all that is nested in it. `from` is past its record and at its first pair.
    #[cycle(check_field_check_type)]
    fn check_field<'s>(
        &self,
        row: &Siblings,
        head: FieldRecord,
        from: Unread<'s>,
    ) -> Result<Unread<'s>, SheetRefusal>
        ensures walk { walked result ≡ walk_field self.now.bytes.now self.now.room (row_of row.now) head (ahead from.entry) }
        ensures shorter { IfOk result (λ a. length a.records.now ≤ length from.entry.records.now) }
    {
        let past = self.check_record(row, head, from)?;
        self.below().check_type(head, past)
    }

    // The children that a field's type asks for, on the level below it.
    #[cycle(check_field_check_type)]
    fn check_type<'s>(
        &self,
        head: FieldRecord,
        from: Unread<'s>,
    ) -> Result<Unread<'s>, SheetRefusal>
        requires { CountFits (child_rule head.data_type) head.children }
        ensures walk { walked result ≡ walk_children (walk_field self.now.bytes.now self.now.room) head.children (row_under (child_rule head.data_type)) (ahead from.entry) }
        ensures shorter { IfOk result (λ a. length a.records.now ≤ length from.entry.records.now) }
    {
        let mut row = Siblings::under(child_rule(head.data_type));
        let mut at = from;
        for _ in 0..head.children {
            let (child, behind) = at.next().ok_or(SheetRefusal::Counts)?;
            at = self.check_field(&row, child, behind)?;
            row.note(child.type_id);
        }
        Ok(at)
    }
}

// The outermost fields, to the end of the records.
fn check_fields<'s>(bytes: &[u8], from: Unread<'s>) -> Result<Unread<'s>, SheetRefusal>
    ensures { walked result ≡ walk_row (walk_field bytes.now 32) (length from.entry.records.now) from.entry.records.now from.entry.pairs.now }
{
    let top = Level {
        bytes,
        room: MAX_DEPTH,
    };
    let row = Siblings::outermost();
    let mut at = from;
    while let Some((head, behind)) = at.next() {
        at = top.check_field(&row, head, behind)?;
    }
    Ok(at)
}

// The rules on the schema's own pairs, and that no pairs are left over.
fn check_own_pairs(bytes: &[u8], own: &[Pair], left: &[Pair]) -> Result<(), SheetRefusal>
    ensures { told result ≡ first_broken (own_rules bytes.now own.now (length left.now)) }
{
    if !pairs_fit(bytes, own) {
        return Err(SheetRefusal::BadText);
    }
    if !keys_differ(bytes, own) {
        return Err(SheetRefusal::RepeatedKey);
    }
    if !left.is_empty() {
        return Err(SheetRefusal::Counts);
    }
    Ok(())
}

// The verdict, rule after rule.
fn judge(sheet: &Sheet) -> Result<(), SheetRefusal>
    ensures { told result ≡ verdict (content sheet.now) }
{
    if !within_limits(sheet) {
        return Err(SheetRefusal::TooLarge);
    }
    let bytes = sheet.text.as_slice();
    let (own, pairs) = sheet
        .pairs
        .as_slice()
        .split_at_checked(sheet.own_pairs as usize)
        .ok_or(SheetRefusal::Counts)?;
    let records = sheet.records.as_slice();
    let end = check_fields(bytes, Unread { records, pairs })?;
    check_own_pairs(bytes, own, end.pairs)
}

/// Looks at a sheet by every rule, in the order of the verdict, and tells the first that is broken.
/// A sheet that passes is lawful and holds exactly one schema. Nothing is changed.
pub fn check(sheet: &Sheet) -> Result<(), SheetRefusal>
    ensures verdict { told result ≡ verdict (content sheet.now) }
    ensures lawful { MatchResult result (λ _. Lawful (content sheet.now)) (λ _. Lawful (content sheet.now) → ⊥) }
    ensures holds { OnOk result (HoldsOne (content sheet.now)) }
{
    judge(sheet)
}
