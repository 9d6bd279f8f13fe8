//! The rules of a lawful sheet, and the check that tells which one is broken first.
#![tactic(auto)]

mod limits;
mod noted;
mod refusal;
mod siblings;
mod tables;
mod texts;
mod walk;

pub use refusal::SheetRefusal;
pub use walk::{MAX_DEPTH, check};
