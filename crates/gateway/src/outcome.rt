//! Outcomes in words: what a command found, why it was refused, and what a line of a listing did.
ghost use Rattle.std.specs.Prelude.{◌≡◌};
ghost use Rattle.gateway.specs.declared.outcome.Refusal.TheVariants.{Unlawful, NoPlace};

use listing::fill::Step;
use listing_show::quote::Quoted;
use roll::Full;
use rules::SheetRefusal;
use schema::NumbersRefusal;
use sheet::Sheet;
use std::fmt;
use types::Text;

/// What a command found.
#[derive(Clone, Copy)]
pub enum Found<'n> {
    Lawful,
    Kept,
    Alike,
    NotAlike,
    Numbers(&'n [i64]),
}

impl fmt::Display for Found<'_> {
    fn fmt<W: fmt::Write>(&self, f: &mut fmt::Formatter<W>) -> fmt::Result {
        match *self {
            Found::Lawful => f.write_str("lawful"),
            Found::Kept => f.write_str("kept"),
            Found::Alike => f.write_str("alike"),
            Found::NotAlike => f.write_str("not alike"),
            Found::Numbers(numbers) => show_row(f, numbers),
        }
    }
}

// Numbers in a row, or a word that there are none.
fn show_row<W: fmt::Write>(f: &mut fmt::Formatter<W>, numbers: &[i64]) -> fmt::Result {
    let Some((first, rest)) = numbers.split_first() else {
        return f.write_str("none");
    };
    write!(f, "{first}")?;
    for n in rest {
        write!(f, " {n}")?;
    }
    Ok(())
}

/// Why a command was refused.
#[derive(Clone, Copy)]
pub enum Refusal {
    Unlawful(SheetRefusal),
    NoPlace,
}

impl fmt::Display for Refusal {
    fn fmt<W: fmt::Write>(&self, f: &mut fmt::Formatter<W>) -> fmt::Result {
        match self {
            Refusal::Unlawful(refusal) => write!(f, "refused {refusal}"),
            Refusal::NoPlace => f.write_str("no place left"),
        }
    }
}

impl From<SheetRefusal> for Refusal {
    ghost from_gives = { λ e r. r ≡ Unlawful e };

    fn from(e: SheetRefusal) -> Refusal {
        Refusal::Unlawful(e)
    }
}

impl From<Full> for Refusal {
    ghost from_gives = { λ _ r. r ≡ NoPlace };

    fn from(_e: Full) -> Refusal {
        Refusal::NoPlace
    }
}

impl From<NumbersRefusal> for Refusal {
    fn from(e: NumbersRefusal) -> Refusal {
        match e {
            NumbersRefusal::OfSheet(refusal) => Refusal::Unlawful(refusal),
            NumbersRefusal::Full => Refusal::NoPlace,
        }
    }
}

/// What a line of a listing did to a sheet.
#[derive(Clone, Copy)]
pub struct StepSaid<'s, 'a> {
    pub sheet: &'s Sheet<'a>,
    pub step: Step,
}

impl<'s> StepSaid<'s, '_> {
    // A text that was just laid. It stands on the sheet, so the empty text is never shown in its place.
    fn quoted(&self, t: Text) -> Quoted<'s> {
        Quoted(self.sheet.text_of(t).unwrap_or(&[]))
    }
}

impl fmt::Display for StepSaid<'_, '_> {
    fn fmt<W: fmt::Write>(&self, f: &mut fmt::Formatter<W>) -> fmt::Result {
        match self.step {
            Step::Emptied => f.write_str("schema: an empty sheet"),
            Step::PairLaid { key, owner: None } => {
                write!(f, "pair {} laid for the schema", self.quoted(key))
            }
            Step::PairLaid {
                key,
                owner: Some(i),
            } => { write!(f, "pair {} laid for record {i}", self.quoted(key)) }
            Step::FieldLaid { depth, name, place } => {
                let name = self.quoted(name);
                write!(f, "field {depth} {name} laid as record {place}")
            }
        }
    }
}
