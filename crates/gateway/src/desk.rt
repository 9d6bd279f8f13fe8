//! The desk: the sheet that a script works on, the one that it kept, and what each line does to them.
ghost use Rattle.std.specs.Prelude.{◌≡◌, OnOk};
ghost use Rattle.sheet.specs.Contents.{content};

use crate::command::{Command, read_command};
use crate::memory::RECORDS;
use crate::outcome::{Found, Refusal, StepSaid};
use crate::report::Report;
use listing::fill::Filler;
use listing_show::show::Listing;
use roll::{Full, Roll};
use rules::check;
use schema::{alike, dictionary_numbers};
use sheet::Sheet;
use std::alloc::Global;

/// Two sheets and what fills the first.
#[derive(Drop)]
pub struct Desk<'a> {
    heap: Global,
    filler: Filler,
    sheet: Sheet<'a>,
    kept: Sheet<'a>,
}

// Whether the sheet is lawful.
fn checked(sheet: &Sheet) -> Result<Found<'static>, Refusal> {
    check(sheet)?;
    Ok(Found::Lawful)
}

// Whether two sheets hold the same schema, but for the numbers of their dictionaries.
fn compared(a: &Sheet, b: &Sheet) -> Result<Found<'static>, Refusal> {
    Ok(if alike(a, b)? {
        Found::Alike
    } else {
        Found::NotAlike
    })
}

// Lays what stands on one sheet on another.
fn copy(from: &Sheet, to: &mut Sheet) -> Result<(), Full>
    ensures { OnOk result (content to.new ≡ content from.now) }
{
    to.clear();
    to.records.add_all(from.records.as_slice())?;
    to.pairs.add_all(from.pairs.as_slice())?;
    to.text.add_all(from.text.as_slice())?;
    to.own_pairs = from.own_pairs;
    Ok(())
}

fn kept(from: &Sheet, to: &mut Sheet) -> Result<Found<'static>, Refusal>
    ensures { OnOk result (content to.new ≡ content from.now) }
{
    copy(from, to)?;
    Ok(Found::Kept)
}

// The numbers of the sheet's dictionaries.
fn numbered<'n>(sheet: &Sheet, told: &'n mut Roll<i64>) -> Result<Found<'n>, Refusal> {
    dictionary_numbers(sheet, told)?;
    Ok(Found::Numbers(told.as_slice()))
}

impl<'a> Desk<'a> {
    pub fn new(heap: Global, sheet: Sheet<'a>, kept: Sheet<'a>) -> Desk<'a> {
        Desk {
            heap,
            filler: Filler::new(heap),
            sheet,
            kept,
        }
    }

    fn show(&self, report: Report) -> anyhow::Result<()> {
        report.listing(&Listing::new(self.heap, &self.sheet)?)
    }

    fn tell_numbers(&self, report: Report) -> anyhow::Result<()> {
        let mut places = vec![in self.heap; 0; RECORDS]?;
        let mut told = Roll::new(places.as_mut_slice());
        report.outcome(Command::Numbers, numbered(&self.sheet, &mut told))
    }

    fn run_command(&mut self, report: Report, command: Command) -> anyhow::Result<()> {
        match command {
            Command::Show => self.show(report),
            Command::Numbers => self.tell_numbers(report),
            Command::Check => report.outcome(command, checked(&self.sheet)),
            Command::Keep => report.outcome(command, kept(&self.sheet, &mut self.kept)),
            Command::Alike => report.outcome(command, compared(&self.sheet, &self.kept)),
        }
    }

    fn lay_line(&mut self, report: Report, line: &[u8]) -> anyhow::Result<()> {
        match self.filler.lay(self.heap, &mut self.sheet, line) {
            Ok(None) => Ok(()),
            Ok(Some(step)) => report.step(StepSaid {
                sheet: &self.sheet,
                step,
            }),
            Err(fault) => report.fault(fault),
        }
    }

    /// Runs a line of a script, and prints what became of it.
    pub fn run_line(&mut self, report: Report, line: &[u8]) -> anyhow::Result<()> {
        match read_command(line) {
            Ok(Some(command)) => self.run_command(report, command),
            Ok(None) => self.lay_line(report, line),
            Err(fault) => report.fault(fault),
        }
    }
}
