//! What became of each line of a script, printed.
use crate::command::Command;
use crate::outcome::{Found, Refusal, StepSaid};
use listing_show::show::Listing;
use listing_words::fault::LineFault;
use listing_words::names::Named;
use std::fmt;

/// The number of a script's line, and where what became of the line is printed.
#[derive(Clone, Copy)]
pub struct Report<'r> {
    rt: &'r HostRuntime,
    number: u64,
}

impl<'r> Report<'r> {
    pub fn new(rt: &'r HostRuntime, number: u64) -> Report<'r> {
        Report { rt, number }
    }

    // What became of the line, behind the word that it begins with: the command, or that it is a bad line.
    fn tell(self, about: &str, said: impl fmt::Display + Drop) -> anyhow::Result<()> {
        println!(self.rt; "line {}: {about}: {said}", self.number)?;
        Ok(())
    }

    pub fn fault(self, fault: LineFault) -> anyhow::Result<()> {
        self.tell("bad line", fault)
    }

    pub fn outcome(
        self,
        command: Command,
        outcome: Result<Found<'_>, Refusal>,
    ) -> anyhow::Result<()> {
        match outcome {
            Ok(found) => self.tell(command.name(), found),
            Err(refusal) => self.tell(command.name(), refusal),
        }
    }

    pub fn step(self, step: StepSaid) -> anyhow::Result<()> {
        println!(self.rt; "line {}: {step}", self.number)?;
        Ok(())
    }

    pub fn listing(self, listing: &Listing) -> anyhow::Result<()> {
        print!(self.rt; "line {}: show:\n{listing}", self.number)?;
        Ok(())
    }
}
