//! What schemas sheets hold: whether two are alike, and which numbers their dictionaries have.
#![tactic(auto)]

mod compare;
mod fields;
mod numbers;

pub use compare::alike;
pub use numbers::{NumbersRefusal, dictionary_numbers};
