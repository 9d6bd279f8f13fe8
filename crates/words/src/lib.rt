//! A store over the caller's words.
#![tactic(auto)]

pub mod view;
pub mod word_store;
pub mod worked;

pub use view::WordView;
pub use word_store::WordStore;
