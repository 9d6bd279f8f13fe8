//! The dictionary numbers of a sheet.
ghost use Rattle.std.specs.Prelude.{◌≡◌, ◌≤◌, ◌++◌, length, drop, MatchResult};
ghost use Rattle.roll.specs.Rolls.{items, free};
ghost use Rattle.sheet.specs.Contents.{content};
ghost use Rattle.rules.specs.Lawful.{Lawful};
ghost use Rattle.schema.specs.Numbers.{own_number, how_many, numbers_at};
ghost use Rattle.schema.specs.Answers.{Laid, WhyNot};
ghost use Rattle.schema.specs.declared.numbers.NumbersRefusal.TheVariants.{OfSheet};

use roll::Roll;
use rules::{MAX_DEPTH, SheetRefusal, check};
use sheet::Sheet;
use types::FieldRecord;

/// Why a sheet's dictionary numbers are not told.
#[derive(Clone, Copy, PartialEq, Eq, Debug)]
pub enum NumbersRefusal {
    /// The sheet is not lawful.
    OfSheet(SheetRefusal),
    /// The caller's roll has too few free places.
    Full,
}

impl From<SheetRefusal> for NumbersRefusal {
    ghost from_gives = { λ e r. r ≡ OfSheet e };

    fn from(refusal: SheetRefusal) -> NumbersRefusal {
        NumbersRefusal::OfSheet(refusal)
    }
}

// Adds the number of a record's own dictionary, if it has one.
fn lay_own(x: &FieldRecord, out: &mut Roll<i64>)
    requires { length (own_number x.now) ≤ length (free out.old) }
    ensures items { items out.new ≡ items out.old ++ own_number x.now }
    ensures free { free out.new ≡ drop (length (own_number x.now)) (free out.old) }
{
    if let Some(d) = x.dictionary {
        out.add(d.number).unwrap();
    }
}

// Adds the numbers of the first `n` fields, with `room` levels left for them, and tells the records behind them.
fn lay_row<'a>(
    records: &'a [FieldRecord],
    n: usize,
    room: u32,
    out: &mut Roll<i64>,
) -> &'a [FieldRecord]
    requires { length (numbers_at room n records.now).numbers ≤ length (free out.old) }
    ensures items { items out.new ≡ items out.old ++ (numbers_at room n records.now).numbers }
    ensures free { free out.new ≡ drop (length (numbers_at room n records.now).numbers) (free out.old) }
    ensures behind { result.now ≡ (numbers_at room n records.now).records }
{
    let mut rest = records;
    if room == 0 {
        return rest;
    }
    for _ in 0..n {
        let Some((x, nested)) = rest.split_first() else {
            return rest;
        };
        rest = lay_row(nested, x.children as usize, room - 1, out);
        lay_own(x, out);
    }
    rest
}

// How many records have a dictionary.
fn count_dictionaries(records: &[FieldRecord]) -> usize
    ensures { result ≡ how_many records.now }
{
    records.iter().filter(|x| x.dictionary.is_some()).count()
}

/// Adds the dictionary numbers of a sheet's schema to a roll: those nested in a field before its own, else left to right.
/// All of them or none: where the sheet is not lawful or the roll lacks places, nothing is changed.
pub fn dictionary_numbers(sheet: &Sheet, out: &mut Roll<i64>) -> Result<(), NumbersRefusal>
    ensures laid { MatchResult result (λ _. Laid (content sheet.now) (items out.old) (free out.old) (items out.new) (free out.new)) (λ _. out.new ≡ out.old) }
    ensures cases { MatchResult result (λ _. Lawful (content sheet.now)) (WhyNot (content sheet.now) (length (free out.old))) }
{
    check(sheet)?;
    let records = sheet.records.as_slice();
    if count_dictionaries(records) > out.capacity() - out.len() {
        return Err(NumbersRefusal::Full);
    }
    lay_row(records, records.len(), MAX_DEPTH, out);
    Ok(())
}
