//! The listing, a text form of a sheet, read line by line into a sheet.
#![tactic(auto)]

pub mod fill;
pub mod line;
pub mod reader;
pub mod type_words;

pub use fill::{Filler, Step};
