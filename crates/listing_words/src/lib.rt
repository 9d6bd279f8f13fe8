//! The words of a listing: tokens of a line, the names of types, and what can be wrong with a line.
#![tactic(auto)]

pub mod fault;
pub mod names;
pub mod token;

pub use fault::LineFault;
