//! The gateway: runs a script of listing lines and commands on a sheet, and prints each step with its outcome.
#![tactic(auto)]

mod command;
mod desk;
mod memory;
mod outcome;
mod report;

use crate::desk::Desk;
use crate::memory::Memory;
use crate::report::Report;
use std::io::{BufRead, BufReader};

fn run(rt: &HostRuntime) -> anyhow::Result<()> {
    let heap = rt.alloc();
    let mut first = Memory::new(heap)?;
    let mut second = Memory::new(heap)?;
    let mut desk = Desk::new(heap, first.sheet(), second.sheet());
    let lines = BufReader::new(heap, rt.stdin())?.split(heap, b'\n');
    for (number, line) in (1..).zip(lines) {
        desk.run_line(Report::new(rt, number), line?.as_slice())?;
    }
    Ok(())
}

fn main(rt: HostRuntime) -> anyhow::Result<()> {
    run(&rt)
}
