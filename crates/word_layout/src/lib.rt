//! How objects lie in a row of words: each is a head word and the words behind it.
#![tactic(auto)]

pub mod lay;
pub mod list;
pub mod pack;
pub mod standing;
