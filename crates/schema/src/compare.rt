//! Whether two sheets hold alike schemas.
ghost use Rattle.std.specs.Prelude.{◌≡◌, [], ◌∷◌, take, drop, Some, Decides, MatchOption, MatchResult, OnOk};
ghost use Rattle.sheet.specs.Contents.{content};
ghost use Rattle.rules.specs.Verdict.{verdict, or_else};
ghost use Rattle.rules.specs.Lawful.{Lawful};
ghost use Rattle.schema.specs.Lines.{lines, lines_of, own_of};
ghost use Rattle.schema.specs.Answers.{TellsAlike};

use crate::fields::{Line, Sides};
use roll::part;
use rules::{SheetRefusal, check};
use sheet::{Sheet, Unread};
use types::Pair;

// The records of a sheet, behind the schema's own pairs.
fn records_of<'a>(sheet: &'a Sheet) -> Unread<'a>
    ensures records { result.records.now ≡ (content sheet.now).records }
    ensures pairs { result.pairs.now ≡ drop (content sheet.now).own (content sheet.now).pairs }
{
    let pairs = sheet.pairs.as_slice();
    Unread {
        records: sheet.records.as_slice(),
        pairs: part(pairs, sheet.own_pairs as usize, pairs.len()),
    }
}

// The next record with its pairs and what is behind it, or none at the end.
fn next_line<'a>(from: Unread<'a>) -> Option<(Line<'a>, Unread<'a>)>
    ensures { MatchOption result (from.entry.records.now ≡ []) (λ l. (from.entry.records.now ≡ l.0.head ∷ l.1.records.now) × (l.0.pairs.now ≡ take l.0.head.pairs from.entry.pairs.now) × (l.1.pairs.now ≡ drop l.0.head.pairs from.entry.pairs.now)) }
{
    let (head, behind) = from.next()?;
    let n = head.pairs as usize;
    let pairs = part(from.pairs, 0, n);
    let left = part(from.pairs, n, from.pairs.len());
    Some((
        Line { head, pairs },
        Unread {
            pairs: left,
            ..behind
        },
    ))
}

// The schema's own pairs.
fn own_pairs<'a>(sheet: &'a Sheet) -> &'a [Pair]
    ensures { result.now ≡ take (content sheet.now).own (content sheet.now).pairs }
{
    part(sheet.pairs.as_slice(), 0, sheet.own_pairs as usize)
}

// Whether lines are the same, one after another.
// Kept: this and `Sides::same_pairs` go over two rows alike, but each with a way of its own to the next, to compare and to end.
#[tactic(auto, using(crate::proofs::LineSteps::length_lines))]
fn same_lines(sides: &Sides, a: Unread, b: Unread) -> bool
    ensures { Decides result (lines sides.now.first.now a.entry.pairs.now a.entry.records.now ≡ lines sides.now.second.now b.entry.pairs.now b.entry.records.now) }
{
    // Rows of different lengths are told apart before any text is compared.
    if a.records.len() != b.records.len() {
        return false;
    }
    let (mut left, mut right) = (a, b);
    while let Some((x, behind)) = next_line(left) {
        let Some((y, past)) = next_line(right) else {
            return false;
        };
        if !sides.same_line(&x, &y) {
            return false;
        }
        (left, right) = (behind, past);
    }
    next_line(right).is_none()
}

// Whether all but dictionary numbers is the same: the schemas' own pairs, and the fields in preorder.
fn same_schema(a: &Sheet, b: &Sheet) -> bool
    ensures { Decides result ((own_of (content a.now) ≡ own_of (content b.now)) × (lines_of (content a.now) ≡ lines_of (content b.now))) }
{
    let sides = Sides {
        first: a.text.as_slice(),
        second: b.text.as_slice(),
    };
    sides.same_pairs(own_pairs(a), own_pairs(b)) && same_lines(&sides, records_of(a), records_of(b))
}

/// Whether two sheets hold alike schemas: equal in everything but the numbers of dictionaries.
/// A sheet that is not lawful is refused by the rule it breaks, the first sheet before the second. Nothing is changed.
pub fn alike(a: &Sheet, b: &Sheet) -> Result<bool, SheetRefusal>
    ensures cases { MatchResult result (TellsAlike (content a.now) (content b.now)) (λ e. or_else (verdict (content a.now)) (verdict (content b.now)) ≡ Some e) }
    ensures lawful { OnOk result (Lawful (content a.now) × Lawful (content b.now)) }
{
    check(a)?;
    check(b)?;
    Ok(same_schema(a, b))
}
